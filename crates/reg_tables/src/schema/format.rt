//! The formats of a register.

ghost use Rattle.std.specs.Prelude.{◌≡◌};
ghost use Rattle.reg_tables.specs.Tables.{format_number};

/// How a register's tables are laid out.
#[derive(Clone, Copy)]
pub(crate) enum Format {
    /// Four tables: meta, deposits, lines and steps.
    First,
    /// These, and the table of the deposits that were withdrawn.
    Second,
}

impl Format {
    /// The format's number, as the row `format` of meta has it.
    pub(crate) fn number(self) -> u32
        ensures { result ≡ format_number self }
    {
        match self {
            Format::First => 1,
            Format::Second => 2,
        }
    }
}
