//! Registers, status, mode and switches.

ghost use Rattle.std.specs.Prelude.{◌≡◌};
ghost use Rattle.lgp_table.specs.Activity.{resume, status_after, status_at_end};
ghost use Rattle.lgp_table.specs.Console.{is_at_rest, is_halted, is_waiting};

use lgp_word::{Address, Word};

/// Why the machine has halted.
#[derive(Clone, Copy, Debug, PartialEq, Eq, Hash)]
pub enum Cause {
    /// The operator stopped it, or it has not been started yet.
    Operator,
    /// A stop order.
    Stop,
    /// A sum, a product or a quotient outside the range of fractions.
    Overflow,
    /// One operation has been performed.
    Step,
}

/// What the machine does at an order boundary, and so which activity it begins there.
#[derive(Clone, Copy, Debug, PartialEq, Eq, Hash)]
pub enum Status {
    /// It stands still.
    Halted(Cause),
    /// It performs the order at the counter.
    Going,
    /// It performs the order in the instruction register.
    Executing,
    /// An input has not ended: it waits for the operator.
    Waiting,
    /// The reader was started from the console.
    Reading,
}

/// The position of the mode buttons.
#[derive(Clone, Copy, Debug, PartialEq, Eq, Hash)]
pub enum Mode {
    Normal,
    OneOperation,
    Manual,
}

impl Mode {
    /// How the machine goes on in this mode when an order or an input is done.
    pub fn resume(self) -> Status
        ensures { result ≡ resume self }
    {
        match self {
            Mode::Normal => Status::Going,
            Mode::OneOperation => Status::Halted(Cause::Step),
            Mode::Manual => Status::Halted(Cause::Operator),
        }
    }

    /// The state of the machine in this mode when a tape that was started from the console has ended without a conditional stop.
    pub fn status_at_end(self) -> Status
        ensures { result ≡ status_at_end self }
    {
        match self {
            Mode::Normal | Mode::OneOperation => Status::Waiting,
            Mode::Manual => Status::Halted(Cause::Operator),
        }
    }
}

impl Status {
    /// Whether the machine has halted.
    pub fn is_halted(self) -> bool
        ensures { result ≡ is_halted self }
    {
        matches!(self, Status::Halted(_))
    }

    /// Whether an input waits for the operator.
    pub fn is_waiting(self) -> bool
        ensures { result ≡ is_waiting self }
    {
        matches!(self, Status::Waiting)
    }

    /// Whether the machine is at rest, Halted or Waiting.
    pub fn is_at_rest(self) -> bool
        ensures { result ≡ is_at_rest self }
    {
        matches!(self, Status::Halted(_) | Status::Waiting)
    }
}

impl Ending {
    /// The status after an order that ends so, where the machine would go on with the status `on`.
    pub fn status_after(self, on: Status) -> Status
        ensures { result ≡ status_after self on }
    {
        match self {
            Ending::Plain => on,
            Ending::Stopped => Status::Halted(Cause::Stop),
            Ending::Overflowed => Status::Halted(Cause::Overflow),
            Ending::Unfinished => Status::Waiting,
        }
    }
}

/// One of the four BREAK POINT switches.
#[derive(Clone, Copy, Debug, PartialEq, Eq, Hash)]
pub enum Which {
    B32,
    B16,
    B8,
    B4,
}

/// The console's switches; true is down.
#[derive(Clone, Copy, Debug, Default, PartialEq, Eq, Hash)]
pub struct Switches {
    pub b32: bool,
    pub b16: bool,
    pub b8: bool,
    pub b4: bool,
    /// TRANSFER CONTROL.
    pub transfer: bool,
    /// 6 BIT INPUT.
    pub six_bit: bool,
}

/// The registers, the status, the mode and the switches.
#[derive(Clone, Copy, Debug, PartialEq, Eq, Hash)]
pub struct Panel {
    /// The address of the next order.
    pub counter: Address,
    /// The accumulator's 32 bits.
    pub accumulator: u32,
    /// The instruction register.
    pub register: Word,
    pub status: Status,
    pub mode: Mode,
    pub switches: Switches,
}

impl Panel {
    ghost use Rattle.lgp_table.specs.State.{opening_panel};

    /// The registers of a machine that has just been switched on.
    pub fn opening() -> Panel
        ensures { result ≡ opening_panel }
    {
        Panel {
            counter: Address::default(),
            accumulator: 0,
            register: Word::default(),
            status: Status::Halted(Cause::Operator),
            mode: Mode::Normal,
            switches: Switches::default(),
        }
    }
}

/// How an order ends.
#[derive(Clone, Copy, Debug, PartialEq, Eq, Hash)]
pub enum Ending {
    /// It is done.
    Plain,
    /// It stops the machine.
    Stopped,
    /// Its result is outside the range of fractions.
    Overflowed,
    /// It is an input that no conditional stop has ended.
    Unfinished,
}
