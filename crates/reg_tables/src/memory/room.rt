//! The memory that a start takes which opens the register, reckoned from what the register has.

ghost use Rattle.std.specs.Prelude.{◌≡◌};

use ags_check::Checked;
use std::alloc::{AllocError, Global};

/// How much a deposit has.
#[derive(Clone, Copy)]
pub(crate) struct Size {
    /// Bytes of its body.
    pub bytes: usize,
    /// Bytes of memory that its row of PROJ and the rows that it reaches take.
    pub held: usize,
    /// Rows that are kept of it, of each kind.
    pub lines: usize,
    /// DATA rows among them.
    pub rows: u32,
    /// Steps between its DATA rows.
    pub steps: usize,
}

impl Size {
    /// That of a checked file which has so many bytes, and of which rows that take so many are in memory.
    pub(crate) fn of(file: &Checked<'_>, bytes: usize, held: usize) -> Size
        ensures { result.rows ≡ file.now.graph.rows }
    {
        let rows = file.graph().rows();
        let headers = file.scan().groups().len().saturating_mul(HEADER_ROWS);
        Size {
            bytes,
            held,
            lines: headers.saturating_add(rows as usize),
            rows,
            steps: file.graph().steps().len(),
        }
    }
}

/// How much a register has.
#[derive(Clone, Copy)]
pub(crate) struct Totals {
    /// Bytes of its dictionary.
    dictionary: u64,
    deposits: u64,
    /// Bytes of all bodies.
    bytes: u64,
    /// Bytes of memory that rows of all deposits take, as long as the register is open.
    held: u64,
    /// Rows of all deposits.
    lines: u64,
    /// Steps of all deposits.
    steps: u64,
    /// Bytes of memory that the check of one deposit takes: the most of them.
    check: u64,
}

impl Totals {
    /// That of a register without deposits, whose dictionary has so many bytes.
    pub(crate) fn of_dictionary(bytes: usize) -> Totals {
        Totals {
            dictionary: bytes as u64,
            deposits: 0,
            bytes: 0,
            held: 0,
            lines: 0,
            steps: 0,
            check: 0,
        }
    }

    /// With a deposit more.
    pub(crate) fn with(self, size: Size) -> Totals {
        let check = of_check(size);
        Totals {
            dictionary: self.dictionary,
            deposits: self.deposits.saturating_add(1),
            bytes: self.bytes.saturating_add(size.bytes as u64),
            held: self.held.saturating_add(size.held as u64),
            lines: self.lines.saturating_add(size.lines as u64),
            steps: self.steps.saturating_add(size.steps as u64),
            check: if check > self.check {
                check
            } else {
                self.check
            },
        }
    }

    /// What this takes at these rates, in bytes.
    fn reckoned(&self, rates: &Rates) -> u64 {
        rates
            .process
            .saturating_add(self.dictionary.saturating_mul(rates.dictionary_byte))
            .saturating_add(self.bytes.saturating_mul(rates.byte))
            .saturating_add(self.deposits.saturating_mul(rates.deposit))
            .saturating_add(self.lines.saturating_mul(rates.line))
            .saturating_add(self.steps.saturating_mul(rates.step))
    }
}

/// What a register had as this process opened it, and what it has now.
#[derive(Clone, Copy)]
pub(crate) struct Room {
    opened: Totals,
    now: Totals,
}

impl Room {
    /// Of a register that is made, whose dictionary has so many bytes and was read.
    pub(crate) fn of_new(dictionary_bytes: usize) -> Room {
        Room {
            opened: Totals::of_dictionary(dictionary_bytes),
            now: Totals::of_dictionary(dictionary_bytes),
        }
    }

    /// Of a register that is opened.
    pub(crate) fn of_opened(totals: Totals) -> Room {
        Room {
            opened: totals,
            now: totals,
        }
    }

    /// With a deposit more.
    pub(crate) fn with(self, size: Size) -> Room {
        Room {
            opened: self.opened,
            now: self.now.with(size),
        }
    }

    /// The bytes of memory that a start takes which opens the register.
    fn next_start(&self) -> u64 {
        self.now
            .reckoned(&AT_A_START)
            .saturating_add(self.now.held)
            .saturating_add(self.now.check)
    }

    /// Takes the memory that a start will take beyond what this process holds, and drops it.
    pub(crate) fn try_start(&self, alloc: Global) -> Result<(), AllocError> {
        self.take(alloc, self.next_start())
    }

    /// Whether a start will need more than three quarters of the memory that a process may take.
    pub(crate) fn is_nearly_full(&self, alloc: Global) -> bool {
        let start = self.next_start();
        self.take(alloc, start.saturating_add(start / 3)).is_err()
    }

    /// Takes so many bytes of memory, less those that this process holds of the register, and drops them.
    fn take(&self, alloc: Global, bytes: u64) -> Result<(), AllocError> {
        let held = self.opened.reckoned(&HELD);
        let _taken: Vec<u8> = Vec::with_capacity(alloc, bytes.saturating_sub(held) as usize)?;
        Ok(())
    }
}

/// How many rows of a group are no DATA rows.
const HEADER_ROWS: usize = 4;

/// Bytes of address space that the parts of a register take.
struct Rates {
    /// The program without a register.
    process: u64,
    /// A byte of the dictionary.
    dictionary_byte: u64,
    /// A deposit without its bytes, rows and steps.
    deposit: u64,
    /// A byte of a body.
    byte: u64,
    /// A row, of each kind.
    line: u64,
    step: u64,
}

/// What a start takes at most, but for the check of one deposit. `conformance/room.py` measures it.
const AT_A_START: Rates = Rates {
    process: 15_000_000,
    dictionary_byte: 27,
    deposit: 6_500,
    byte: 3,
    line: 10,
    step: 190,
};

/// What a process surely holds of a register that it opened. Of rows and steps it may hold nothing, and of what it adds
/// next to nothing.
const HELD: Rates = Rates {
    process: 13_000_000,
    dictionary_byte: 12,
    deposit: 500,
    byte: 0,
    line: 0,
    step: 0,
};

/// The bytes of memory that the check of a deposit takes at most, as long as it runs.
fn of_check(size: Size) -> u64 {
    let bytes = (size.bytes as u64).saturating_mul(OF_CHECK_BYTE);
    bytes.saturating_add((size.steps as u64).saturating_mul(OF_CHECK_STEP))
}

/// Bytes of memory for each byte and each step of the deposit that is checked.
const OF_CHECK_BYTE: u64 = 20;

const OF_CHECK_STEP: u64 = 35;
