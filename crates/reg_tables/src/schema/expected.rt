//! The tables and indexes that a register of each format has.

use sqlite_schema::schema::Kind;
use sqlite_value::keys::Order;

/// A table that is expected.
pub(crate) struct ExpectedTable {
    pub name: &'static [u8],
    pub tree: u32,
    pub columns: &'static [ExpectedColumn],
    pub key: ExpectedKey,
    /// The place of the column that refers to the number of a deposit.
    pub deposit: Option<usize>,
}

/// A column that is expected.
pub(crate) enum ExpectedColumn {
    /// Each row has a value of this type.
    Filled(&'static [u8], Kind),
    /// The number of a row.
    RowNumber(&'static [u8]),
}

/// The key of a table that is expected.
pub(crate) enum ExpectedKey {
    /// The columns at these places, with an index in this order.
    Columns(&'static [usize], Order),
    /// The number of a row.
    RowNumber,
}

/// The index of a key that is expected.
pub(crate) struct ExpectedIndex {
    pub name: &'static [u8],
    pub tree: u32,
    pub table: u32,
    pub columns: &'static [usize],
    pub order: Order,
}

/// The tables of format 1.
pub(crate) static FIRST: [ExpectedTable; 4] = [META, DEPOSITS, LINES, STEPS];

/// The tables of format 2.
pub(crate) static SECOND: [ExpectedTable; 5] = [META, DEPOSITS, LINES, STEPS, WITHDRAWALS];

/// The indexes of either format.
pub(crate) static INDEXES: [ExpectedIndex; 4] = [
    ExpectedIndex {
        name: b"sqlite_autoindex_meta_1",
        tree: 1,
        table: 0,
        columns: &[1],
        order: RISING,
    },
    ExpectedIndex {
        name: b"sqlite_autoindex_deposits_1",
        tree: 3,
        table: 2,
        columns: &[1],
        order: FALLING,
    },
    ExpectedIndex {
        name: b"sqlite_autoindex_lines_1",
        tree: 5,
        table: 4,
        columns: &[1, 2],
        order: RISING,
    },
    ExpectedIndex {
        name: b"sqlite_autoindex_steps_1",
        tree: 7,
        table: 6,
        columns: &[1, 2, 3],
        order: RISING,
    },
];

pub(crate) const META: ExpectedTable = ExpectedTable {
    name: b"meta",
    tree: 0,
    columns: &[
        ExpectedColumn::Filled(b"name", Kind::Text),
        ExpectedColumn::Filled(b"num", Kind::Integer),
        ExpectedColumn::Filled(b"body", Kind::Blob),
    ],
    key: ExpectedKey::Columns(&[1], RISING),
    deposit: None,
};

const DEPOSITS: ExpectedTable = ExpectedTable {
    name: b"deposits",
    tree: 2,
    columns: &[
        ExpectedColumn::Filled(b"number", Kind::Integer),
        ExpectedColumn::Filled(b"firm", Kind::Text),
        ExpectedColumn::Filled(b"project", Kind::Text),
        ExpectedColumn::Filled(b"embargo", Kind::Integer),
        ExpectedColumn::Filled(b"body", Kind::Blob),
    ],
    key: ExpectedKey::Columns(&[1], FALLING),
    deposit: None,
};

const LINES: ExpectedTable = ExpectedTable {
    name: b"lines",
    tree: 4,
    columns: &[
        ExpectedColumn::Filled(b"deposit", Kind::Integer),
        ExpectedColumn::Filled(b"seq", Kind::Integer),
        ExpectedColumn::Filled(b"grp", Kind::Text),
        ExpectedColumn::Filled(b"kind", Kind::Integer),
        ExpectedColumn::Filled(b"line", Kind::Blob),
    ],
    key: ExpectedKey::Columns(&[1, 2], RISING),
    deposit: Some(1),
};

const STEPS: ExpectedTable = ExpectedTable {
    name: b"steps",
    tree: 6,
    columns: &[
        ExpectedColumn::Filled(b"deposit", Kind::Integer),
        ExpectedColumn::Filled(b"child", Kind::Integer),
        ExpectedColumn::Filled(b"target", Kind::Integer),
    ],
    key: ExpectedKey::Columns(&[1, 2, 3], RISING),
    deposit: Some(1),
};

const WITHDRAWALS: ExpectedTable = ExpectedTable {
    name: b"withdrawals",
    tree: 8,
    columns: &[ExpectedColumn::RowNumber(b"deposit")],
    key: ExpectedKey::RowNumber,
    deposit: Some(0),
};

const RISING: Order = Order { digits: 0 };

const FALLING: Order = Order { digits: 1 };
