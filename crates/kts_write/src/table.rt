ghost use Rattle.std.specs.Prelude.{◌≡◌, ◌≤◌, length, take};
ghost use Rattle.kts_code.specs.CodeTexts.{word_of, values_of};
ghost use Rattle.kts_write.specs.Encodings.{place_of, register_of, kinds_of, with_values, samples};

use kts_code::Instr;

/// What an operand of an instruction names.
#[derive(Clone, Copy, Debug, PartialEq, Eq)]
pub enum OperandKind {
    Label,
    Given,
    Choice,
    Number,
    Register,
    Index,
}

/// The instructions: each with its operands, which are called what they name, and its word. The table is handed to the
/// macro that is named.
macro_rules! instructions {
    ($then:ident [$($args:tt)*]) => {
        $then! { [$($args)*]
            Start(label) b"start";
            Take(label) b"take";
            Node b"node";
            Pick(label) b"pick";
            Emit b"emit";
            Back(label) b"back";
            Halt b"halt";
            Jump(label) b"jump";
            Test(label) b"test";
            Need(label) b"need";
            AtLeast(choice, label) b"atleast";
            AtMost(choice, label) b"atmost";
            Within(choice, label) b"within";
            Without(choice, label) b"without";
            Num(number) b"num";
            Var(register) b"var";
            Given(given) b"given";
            Choice(choice) b"choice";
            Add b"add";
            Sub b"sub";
            Mul b"mul";
            Min b"min";
            Max b"max";
            Le b"le";
            Eq b"eq";
            Same b"same";
            And b"and";
            Or b"or";
            Not b"not";
            Gate b"gate";
            First(register, index, label) b"first";
            Next(register, label) b"next";
            True b"true";
            False b"false";
        }
    };
}

macro_rules! match_words {
    ([$instr:expr] $($name:ident $(($($operand:ident),*))? $word:literal;)*) => {
        match $instr { $(Instr::$name { .. } => $word,)* }
    };
}

macro_rules! match_kinds {
    ([$instr:expr] $($name:ident $(($($operand:ident),*))? $word:literal;)*) => {
        match $instr { $(Instr::$name { .. } => &[$($(kind!($operand)),*)?],)* }
    };
}

macro_rules! kind {
    (label) => { OperandKind::Label };
    (given) => { OperandKind::Given };
    (choice) => { OperandKind::Choice };
    (number) => { OperandKind::Number };
    (register) => { OperandKind::Register };
    (index) => { OperandKind::Index };
}

macro_rules! match_values {
    ([$instr:expr] $($name:ident $(($($operand:ident),*))? $word:literal;)*) => {
        match $instr { $(Instr::$name $(($($operand),*))? => padded!($($($operand)*)?),)* }
    };
}

macro_rules! padded {
    () => { [0, 0, 0] };
    ($a:ident) => { [i64::from(*$a), 0, 0] };
    ($a:ident $b:ident) => { [i64::from(*$a), i64::from(*$b), 0] };
    ($a:ident $b:ident $c:ident) => { [i64::from(*$a), i64::from(*$b), i64::from(*$c)] };
}

macro_rules! match_with {
    ([$instr:expr, $values:ident] $($name:ident $(($($operand:ident),*))? $word:literal;)*) => {
        match $instr { $(Instr::$name { .. } => built!($name $values $($($operand)*)?),)* }
    };
}

macro_rules! built {
    ($name:ident $values:ident) => { Instr::$name };
    ($name:ident $values:ident $a:ident) => { Instr::$name(value!($a $values[0])) };
    ($name:ident $values:ident $a:ident $b:ident) => { Instr::$name(value!($a $values[0]), value!($b $values[1])) };
    ($name:ident $values:ident $a:ident $b:ident $c:ident) => {
        Instr::$name(value!($a $values[0]), value!($b $values[1]), value!($c $values[2]))
    };
}

macro_rules! value {
    (number $value:expr) => { $value };
    (register $value:expr) => { register_of($value) };
    ($other:ident $value:expr) => { place_of($value) };
}

macro_rules! all_samples {
    ([] $($name:ident $(($($operand:ident),*))? $word:literal;)*) => {
        [$(Instr::$name $(($(zero!($operand)),*))?),*]
    };
}

macro_rules! zero {
    ($operand:ident) => { 0 };
}

const SAMPLES: [Instr; 34] = instructions!(all_samples []);

/// Each instruction once, with operands 0.
pub fn samples() -> &'static [Instr]
    ensures { result.now ≡ samples }
{
    &SAMPLES
}

/// The word of an instruction.
#[tactic(auto, unfolding(kts_code::specs::CodeTexts::word_of))]
pub fn word_of(instr: &Instr) -> &'static [u8]
    ensures { result.now ≡ word_of instr.now }
{
    instructions!(match_words[instr])
}

/// What its operands name.
#[tactic(auto, unfolding(crate::specs::Encodings::kinds_of))]
pub fn kinds_of(instr: &Instr) -> &'static [OperandKind]
    ensures kinds { result.now ≡ kinds_of instr.now }
    ensures few { length result.now ≤ 3 }
{
    instructions!(match_kinds[instr])
}

/// Its operands, and zeros after them.
#[tactic(auto, unfolding(kts_code::specs::CodeTexts::values_of, crate::specs::Encodings::kinds_of))]
pub fn values_of(instr: &Instr) -> [i64; 3]
    ensures { take (length (kinds_of instr.now)) result ≡ values_of instr.now }
{
    instructions!(match_values[instr])
}

/// A number as a place; 0 where it is none.
fn place_of(value: i64) -> u32
    ensures { result ≡ place_of value }
{
    if 0 <= value && value <= 4_294_967_295 {
        return value as u32;
    }
    0
}

/// A number as a register; 0 where it is none.
fn register_of(value: i64) -> u8
    ensures { result ≡ register_of value }
{
    if 0 <= value && value <= 255 {
        return value as u8;
    }
    0
}

/// The same instruction with these operands.
#[tactic(auto, unfolding(crate::specs::Encodings::with_values))]
pub fn with_values(instr: &Instr, values: [i64; 3]) -> Instr
    ensures { result ≡ with_values instr.now values }
{
    instructions!(match_with [instr, values])
}
