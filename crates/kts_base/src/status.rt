/// How a command ended; its number is the exit status of the process.
#[derive(Clone, Copy, Debug, PartialEq, Eq)]
pub enum Status {
    /// The command's text was written.
    Done = 0,
    /// A file was refused; one line says why.
    Refused = 1,
    /// The words are no command.
    Usage = 2,
    /// The run used up its steps.
    Budget = 3,
    /// Memory was refused.
    NoMemory = 4,
    /// A file could not be read.
    ReadFault = 5,
    /// The output could not be written.
    WriteFault = 6,
    /// The code that was run is faulty.
    Trap = 7,
}

const _: () = prove!(Status::Done as u8 == 0);

const _: () = prove!(Status::Refused as u8 == 1);

const _: () = prove!(Status::Usage as u8 == 2);

const _: () = prove!(Status::Budget as u8 == 3);

const _: () = prove!(Status::NoMemory as u8 == 4);

const _: () = prove!(Status::ReadFault as u8 == 5);

const _: () = prove!(Status::WriteFault as u8 == 6);

const _: () = prove!(Status::Trap as u8 == 7);
