ghost use Rattle.std.specs.Prelude.{◌≡◌, pos};
ghost use Rattle.kts_base.specs.Limits.{most_file_bytes, most_name_bytes, most_atom_bytes, most_nesting, most_number, most_type_end, most_indexes, most_givens, most_choices, most_formulas, most_arguments, most_written_trees, most_variables, most_prefix, most_trees, most_depth, most_parts, most_addends, most_members, most_cells, most_tasks, most_instructions, most_stack, generated_stack, most_window_end, default_budget, most_budget, most_first, most_sample};

/// The most bytes of a file.
pub const MAX_FILE_BYTES: usize = 4_194_304;

/// The most bytes of a name.
pub const MAX_NAME_BYTES: usize = 40;

/// The most bytes of an atom.
pub const MAX_ATOM_BYTES: usize = 40;

/// How deep lists nest at most.
pub const MAX_NESTING: usize = 64;

/// How far a number of a formula, and the range of a whole-number term, may be from 0.
pub const MAX_NUMBER: i64 = 1_000_000_000_000_000;

/// How far an end of a type may be from 0.
pub const MAX_TYPE_END: i64 = 1_000_000;

pub const MAX_INDEXES: usize = 8;

pub const MAX_GIVENS: usize = 32;

pub const MAX_CHOICES: usize = 16;

pub const MAX_FORMULAS: usize = 64;

/// The most arguments of a given or a choice.
pub const MAX_ARGUMENTS: usize = 2;

/// The most term and formula trees of a formula as it is written.
pub const MAX_WRITTEN_TREES: usize = 1_000;

/// The most variables in scope.
pub const MAX_VARIABLES: usize = 8;

/// The most variables in the prefix of a clause.
pub const MAX_PREFIX: usize = 3;

/// The most term and formula trees of a formula, however it was made.
pub const MAX_TREES: usize = 100_000;

/// The most of them in one another.
pub const MAX_DEPTH: usize = 100;

/// The most parts of a `+`.
pub const MAX_PARTS: usize = 1_000;

/// The most addends of the two sides of a comparison.
pub const MAX_ADDENDS: usize = 1_000;

/// The most members of an index.
pub const MAX_MEMBERS: usize = 64;

pub const MAX_CELLS: usize = 1_024;

pub const MAX_TASKS: usize = 1_000_000;

pub const MAX_INSTRUCTIONS: usize = 65_536;

/// The most places of an operand stack.
pub const MAX_STACK: u32 = 4_096;

/// The places of the operand stack of generated code.
pub const GENERATED_STACK: u32 = 256;

/// How far an end of a window may be from 0.
pub const MAX_WINDOW_END: i64 = 4_000_000_000_000_000_000;

/// The steps of a run that is given no budget.
pub const DEFAULT_BUDGET: u64 = 1_000_000_000;

/// The most steps that a run may be given.
pub const MAX_BUDGET: u64 = 1_000_000_000_000_000_000;

/// The most schedules that a run may be stopped after.
pub const MAX_FIRST: u64 = 1_000_000_000_000_000_000;

/// The greatest size of the sample problem.
pub const MAX_SAMPLE: u64 = 64;

/// Each limit that code compares with is the one that definitions name.
pub fn limits_law()
    ensures file_bytes { MAX_FILE_BYTES ≡ most_file_bytes }
    ensures name_bytes { MAX_NAME_BYTES ≡ most_name_bytes }
    ensures atom_bytes { MAX_ATOM_BYTES ≡ most_atom_bytes }
    ensures nesting { MAX_NESTING ≡ most_nesting }
    ensures number { MAX_NUMBER ≡ pos most_number }
    ensures type_end { MAX_TYPE_END ≡ pos most_type_end }
    ensures indexes { MAX_INDEXES ≡ most_indexes }
    ensures givens { MAX_GIVENS ≡ most_givens }
    ensures choices { MAX_CHOICES ≡ most_choices }
    ensures formulas { MAX_FORMULAS ≡ most_formulas }
    ensures arguments { MAX_ARGUMENTS ≡ most_arguments }
    ensures written_trees { MAX_WRITTEN_TREES ≡ most_written_trees }
    ensures variables { MAX_VARIABLES ≡ most_variables }
    ensures prefix { MAX_PREFIX ≡ most_prefix }
    ensures trees { MAX_TREES ≡ most_trees }
    ensures depth { MAX_DEPTH ≡ most_depth }
    ensures parts { MAX_PARTS ≡ most_parts }
    ensures addends { MAX_ADDENDS ≡ most_addends }
    ensures members { MAX_MEMBERS ≡ most_members }
    ensures cells { MAX_CELLS ≡ most_cells }
    ensures tasks { MAX_TASKS ≡ most_tasks }
    ensures instructions { MAX_INSTRUCTIONS ≡ most_instructions }
    ensures stack { MAX_STACK ≡ most_stack }
    ensures generated { GENERATED_STACK ≡ generated_stack }
    ensures window_end { MAX_WINDOW_END ≡ pos most_window_end }
    ensures default_steps { DEFAULT_BUDGET ≡ default_budget }
    ensures budget { MAX_BUDGET ≡ most_budget }
    ensures first { MAX_FIRST ≡ most_first }
    ensures sample { MAX_SAMPLE ≡ most_sample }
{}
