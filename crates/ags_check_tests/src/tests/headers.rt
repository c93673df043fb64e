//! Worked examples of the fourth phase, and that the phases before it come first.

use crate::tests::{Base, Case, Edit};

/// Groups and headings that a dictionary has, and that none has.
pub static UNKNOWN: &[Case] = &[
    Case {
        name: "a file of five groups",
        file: Base::A,
        edits: &[],
        want: "clean",
    },
    Case {
        name: "a file with parents",
        file: Base::B,
        edits: &[],
        want: "clean",
    },
    Case {
        name: "a file with record links",
        file: Base::C,
        edits: &[],
        want: "clean",
    },
    Case {
        name: "a group that no dictionary has",
        file: Base::A,
        edits: &[Edit {
            first: 26,
            last: 26,
            lines: "\"GROUP\",\"XYZ\"\r\n",
        }],
        want: "18 26 XYZ;",
    },
    Case {
        name: "the same in a file with a DICT",
        file: Base::A,
        edits: &[
            Edit {
                first: 26,
                last: 26,
                lines: "\"GROUP\",\"XYZ\"\r\n",
            },
            Edit {
                first: 31,
                last: 30,
                lines: "\r\n\"GROUP\",\"DICT\"\r\n\"HEADING\",\"DICT_TYPE\",\"DICT_GRP\",\"DICT_HDNG\",\"DICT_STAT\",\"DICT_PGRP\"\r\n\"UNIT\",\"\",\"\",\"\",\"\",\"\"\r\n\"TYPE\",\"X\",\"X\",\"X\",\"X\",\"X\"\r\n\"DATA\",\"GROUP\",\"ABC\",\"\",\"\",\"\"\r\n",
            },
        ],
        want: "9 26 XYZ;",
    },
    Case {
        name: "a heading that no dictionary has",
        file: Base::A,
        edits: &[Edit {
            first: 27,
            last: 30,
            lines: "\"HEADING\",\"LOCA_XTRA\",\"LOCA_ID\"\r\n\"UNIT\",\"\",\"\"\r\n\"TYPE\",\"X\",\"ID\"\r\n\"DATA\",\"x\",\"BH1\"\r\n",
        }],
        want: "18 27 LOCA_XTRA;",
    },
    Case {
        name: "the file's DICT has it, after the standard headings",
        file: Base::A,
        edits: &[Edit {
            first: 27,
            last: 30,
            lines: "\"HEADING\",\"LOCA_XTRA\",\"LOCA_ID\"\r\n\"UNIT\",\"\",\"\"\r\n\"TYPE\",\"X\",\"ID\"\r\n\"DATA\",\"x\",\"BH1\"\r\n\r\n\"GROUP\",\"DICT\"\r\n\"HEADING\",\"DICT_TYPE\",\"DICT_GRP\",\"DICT_HDNG\",\"DICT_STAT\"\r\n\"UNIT\",\"\",\"\",\"\",\"\"\r\n\"TYPE\",\"X\",\"X\",\"X\",\"X\"\r\n\"DATA\",\"HEADING\",\"LOCA\",\"LOCA_XTRA\",\"OTHER\"\r\n",
        }],
        want: "7 27 LOCA_ID;",
    },
    Case {
        name: "the file's DICT has another one",
        file: Base::A,
        edits: &[Edit {
            first: 27,
            last: 30,
            lines: "\"HEADING\",\"LOCA_XTRA\",\"LOCA_ID\"\r\n\"UNIT\",\"\",\"\"\r\n\"TYPE\",\"X\",\"ID\"\r\n\"DATA\",\"x\",\"BH1\"\r\n\r\n\"GROUP\",\"DICT\"\r\n\"HEADING\",\"DICT_TYPE\",\"DICT_GRP\",\"DICT_HDNG\",\"DICT_STAT\"\r\n\"UNIT\",\"\",\"\",\"\",\"\"\r\n\"TYPE\",\"X\",\"X\",\"X\",\"X\"\r\n\"DATA\",\"HEADING\",\"LOCA\",\"LOCA_OTHR\",\"OTHER\"\r\n",
        }],
        want: "9 27 LOCA_XTRA;",
    },
];

/// Headings in another's place, and those that a file defines.
pub static ORDERS: &[Case] = &[
    Case {
        name: "an unknown heading in place of the KEY heading",
        file: Base::A,
        edits: &[Edit {
            first: 27,
            last: 27,
            lines: "\"HEADING\",\"FOO_BAR\"\r\n",
        }],
        want: "10a 27 LOCA_ID;10b 27 LOCA_ID;18 27 FOO_BAR;",
    },
    Case {
        name: "another heading in place of the KEY heading",
        file: Base::A,
        edits: &[Edit {
            first: 27,
            last: 27,
            lines: "\"HEADING\",\"LOCA_STAT\"\r\n",
        }],
        want: "10a 27 LOCA_ID;10b 27 LOCA_ID;",
    },
    Case {
        name: "an unknown heading between two in the wrong order",
        file: Base::A,
        edits: &[Edit {
            first: 27,
            last: 30,
            lines: "\"HEADING\",\"LOCA_STAT\",\"FOO_BAR\",\"LOCA_ID\"\r\n\"UNIT\",\"\",\"\",\"\"\r\n\"TYPE\",\"X\",\"X\",\"ID\"\r\n\"DATA\",\"a\",\"b\",\"BH1\"\r\n",
        }],
        want: "7 27 LOCA_ID;18 27 FOO_BAR;",
    },
    Case {
        name: "a user-defined heading with another group's name",
        file: Base::A,
        edits: &[Edit {
            first: 27,
            last: 30,
            lines: "\"HEADING\",\"LOCA_ID\",\"FOO_BAR\"\r\n\"UNIT\",\"\",\"\"\r\n\"TYPE\",\"ID\",\"X\"\r\n\"DATA\",\"BH1\",\"x\"\r\n\r\n\"GROUP\",\"DICT\"\r\n\"HEADING\",\"DICT_TYPE\",\"DICT_GRP\",\"DICT_HDNG\",\"DICT_STAT\",\"DICT_PGRP\"\r\n\"UNIT\",\"\",\"\",\"\",\"\",\"\"\r\n\"TYPE\",\"X\",\"X\",\"X\",\"X\",\"X\"\r\n\"DATA\",\"HEADING\",\"LOCA\",\"FOO_BAR\",\"OTHER\",\"\"\r\n",
        }],
        want: "19b 27 FOO_BAR;",
    },
    Case {
        name: "the same where another group has it",
        file: Base::A,
        edits: &[Edit {
            first: 27,
            last: 30,
            lines: "\"HEADING\",\"LOCA_ID\",\"FOO_BAR\"\r\n\"UNIT\",\"\",\"\"\r\n\"TYPE\",\"ID\",\"X\"\r\n\"DATA\",\"BH1\",\"x\"\r\n\r\n\"GROUP\",\"DICT\"\r\n\"HEADING\",\"DICT_TYPE\",\"DICT_GRP\",\"DICT_HDNG\",\"DICT_STAT\",\"DICT_PGRP\"\r\n\"UNIT\",\"\",\"\",\"\",\"\",\"\"\r\n\"TYPE\",\"X\",\"X\",\"X\",\"X\",\"X\"\r\n\"DATA\",\"HEADING\",\"LOCA\",\"FOO_BAR\",\"OTHER\",\"\"\r\n\"DATA\",\"HEADING\",\"ZZZ\",\"FOO_BAR\",\"OTHER\",\"\"\r\n",
        }],
        want: "clean",
    },
    Case {
        name: "a user-defined heading with its group's name",
        file: Base::A,
        edits: &[Edit {
            first: 27,
            last: 30,
            lines: "\"HEADING\",\"LOCA_ID\",\"LOCA_BAR\"\r\n\"UNIT\",\"\",\"\"\r\n\"TYPE\",\"ID\",\"X\"\r\n\"DATA\",\"BH1\",\"x\"\r\n\r\n\"GROUP\",\"DICT\"\r\n\"HEADING\",\"DICT_TYPE\",\"DICT_GRP\",\"DICT_HDNG\",\"DICT_STAT\",\"DICT_PGRP\"\r\n\"UNIT\",\"\",\"\",\"\",\"\",\"\"\r\n\"TYPE\",\"X\",\"X\",\"X\",\"X\",\"X\"\r\n\"DATA\",\"HEADING\",\"LOCA\",\"LOCA_BAR\",\"OTHER\",\"\"\r\n",
        }],
        want: "clean",
    },
];

/// Groups that a file needs, and their rows; the phases before come first.
pub static NEEDED: &[Case] = &[
    Case {
        name: "no group LOCA over SAMP",
        file: Base::B,
        edits: &[Edit {
            first: 28,
            last: 34,
            lines: "",
        }],
        want: "10c 28 SAMP;",
    },
    Case {
        name: "a delimiter and a concatenator of two characters",
        file: Base::A,
        edits: &[Edit {
            first: 11,
            last: 11,
            lines: "\"DATA\",\"1\",\"||\",\"++\"\r\n",
        }],
        want: "11a 11 TRAN_DLIM;11b 11 TRAN_RCON;",
    },
    Case {
        name: "two rows of TRAN",
        file: Base::A,
        edits: &[Edit {
            first: 12,
            last: 11,
            lines: "\"DATA\",\"1\",\"|\",\"+\"\r\n",
        }],
        want: "14 12 TRAN;",
    },
    Case {
        name: "two rows of PROJ",
        file: Base::A,
        edits: &[Edit {
            first: 6,
            last: 5,
            lines: "\"DATA\",\"P7\",\"North bank\"\r\n",
        }],
        want: "13 6 PROJ;",
    },
    Case {
        name: "no PROJ",
        file: Base::A,
        edits: &[Edit {
            first: 1,
            last: 6,
            lines: "",
        }],
        want: "13 0 PROJ;10c 20 LOCA;",
    },
    Case {
        name: "no TRAN",
        file: Base::A,
        edits: &[Edit {
            first: 7,
            last: 12,
            lines: "",
        }],
        want: "14 0 TRAN;",
    },
    Case {
        name: "no UNIT and no TYPE",
        file: Base::A,
        edits: &[Edit {
            first: 13,
            last: 25,
            lines: "",
        }],
        want: "15 0 UNIT;17 0 TYPE;",
    },
    Case {
        name: "no TRAN, and a row that is too long",
        file: Base::A,
        edits: &[
            Edit {
                first: 7,
                last: 12,
                lines: "",
            },
            Edit {
                first: 30,
                last: 30,
                lines: "\"DATA\",\"BH1\",\"x\"\r\n",
            },
        ],
        want: "4 24 LOCA;",
    },
    Case {
        name: "no row",
        file: Base::Empty,
        edits: &[],
        want: "2 0 -;",
    },
];
