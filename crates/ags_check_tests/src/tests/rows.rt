//! Worked examples of the fifth phase.

use crate::tests::{Base, Case, Edit};

/// Entries under their types, and keys.
pub static KEYS: &[Case] = &[
    Case {
        name: "a mark, spaces, a quote in a cell and no line end at the end",
        file: Base::A,
        edits: &[
            Edit {
                first: 1,
                last: 0,
                lines: "\u{feff}",
            },
            Edit {
                first: 5,
                last: 5,
                lines: "\"DATA\" , \"P7\",\"North \"\"bank\"\"\"\r\n",
            },
            Edit {
                first: 30,
                last: 30,
                lines: "\"DATA\",\"BH1\"",
            },
        ],
        want: "clean",
    },
    Case {
        name: "an entry with one decimal under 2DP",
        file: Base::B,
        edits: &[Edit {
            first: 39,
            last: 39,
            lines: "\"DATA\",\"BH1\",\"1.5\",\"S1\",\"\"\r\n",
        }],
        want: "8 39 SAMP_TOP;10c 46 LNMC;",
    },
    Case {
        name: "two rows of one key with a null in it",
        file: Base::B,
        edits: &[Edit {
            first: 41,
            last: 40,
            lines: "\"DATA\",\"BH1\",\"\",\"S3\",\"\"\r\n\"DATA\",\"BH1\",\"\",\"S3\",\"\"\r\n",
        }],
        want: "10a 42 SAMP;",
    },
    Case {
        name: "keys are texts and no numbers",
        file: Base::B,
        edits: &[Edit {
            first: 46,
            last: 46,
            lines: "\"DATA\",\"BH1\",\"1.5\",\"S1\",\"1.55\",\"23\"\r\n",
        }],
        want: "8 46 SAMP_TOP;10c 46 LNMC;",
    },
    Case {
        name: "the same under type X",
        file: Base::B,
        edits: &[Edit {
            first: 45,
            last: 46,
            lines: "\"TYPE\",\"ID\",\"X\",\"X\",\"2DP\",\"X\"\r\n\"DATA\",\"BH1\",\"1.5\",\"S1\",\"1.55\",\"23\"\r\n",
        }],
        want: "10c 46 LNMC;",
    },
    Case {
        name: "a key entry with a space at its end",
        file: Base::B,
        edits: &[Edit {
            first: 46,
            last: 46,
            lines: "\"DATA\",\"BH1\",\"1.50\",\"S1 \",\"1.55\",\"23\"\r\n",
        }],
        want: "10c 46 LNMC;",
    },
    Case {
        name: "a row twice",
        file: Base::B,
        edits: &[Edit {
            first: 33,
            last: 32,
            lines: "\"DATA\",\"BH1\",\"FINAL\"\r\n",
        }],
        want: "10a 33 LOCA;",
    },
    Case {
        name: "a null under a REQUIRED heading",
        file: Base::A,
        edits: &[Edit {
            first: 30,
            last: 30,
            lines: "\"DATA\",\"\"\r\n",
        }],
        want: "10b 30 LOCA_ID;",
    },
];

/// Units, types and abbreviations, which a file lists.
pub static LISTED: &[Case] = &[
    Case {
        name: "a unit that is not listed",
        file: Base::A,
        edits: &[Edit {
            first: 28,
            last: 28,
            lines: "\"UNIT\",\"furlong\"\r\n",
        }],
        want: "15 28 LOCA_ID;",
    },
    Case {
        name: "a type that is not listed",
        file: Base::A,
        edits: &[Edit {
            first: 29,
            last: 29,
            lines: "\"TYPE\",\"QQ\"\r\n",
        }],
        want: "17 29 LOCA_ID;",
    },
    Case {
        name: "an entry of type PU that is no listed unit",
        file: Base::A,
        edits: &[
            Edit {
                first: 25,
                last: 24,
                lines: "\"DATA\",\"PU\",\"Unit\"\r\n",
            },
            Edit {
                first: 27,
                last: 30,
                lines: "\"HEADING\",\"LOCA_ID\",\"LOCA_GL\"\r\n\"UNIT\",\"\",\"\"\r\n\"TYPE\",\"ID\",\"PU\"\r\n\"DATA\",\"BH1\",\"M\"\r\n",
            },
        ],
        want: "15 31 LOCA_GL;",
    },
    Case {
        name: "an entry of type PT that is no listed type",
        file: Base::A,
        edits: &[
            Edit {
                first: 25,
                last: 24,
                lines: "\"DATA\",\"PT\",\"Unit\"\r\n",
            },
            Edit {
                first: 27,
                last: 30,
                lines: "\"HEADING\",\"LOCA_ID\",\"LOCA_GL\"\r\n\"UNIT\",\"\",\"\"\r\n\"TYPE\",\"ID\",\"PT\"\r\n\"DATA\",\"BH1\",\"M\"\r\n",
            },
        ],
        want: "17 31 LOCA_GL;",
    },
    Case {
        name: "an abbreviation of two parts, one of them listed",
        file: Base::A,
        edits: &[
            Edit {
                first: 25,
                last: 24,
                lines: "\"DATA\",\"PA\",\"Abbreviation\"\r\n",
            },
            Edit {
                first: 27,
                last: 30,
                lines: "\"HEADING\",\"LOCA_ID\",\"LOCA_TYPE\"\r\n\"UNIT\",\"\",\"\"\r\n\"TYPE\",\"ID\",\"PA\"\r\n\"DATA\",\"BH1\",\"CP+RC\"\r\n\r\n\"GROUP\",\"ABBR\"\r\n\"HEADING\",\"ABBR_HDNG\",\"ABBR_CODE\"\r\n\"UNIT\",\"\",\"\"\r\n\"TYPE\",\"X\",\"X\"\r\n\"DATA\",\"LOCA_TYPE\",\"CP\"\r\n",
            },
        ],
        want: "16 31 LOCA_TYPE;",
    },
    Case {
        name: "both parts listed",
        file: Base::A,
        edits: &[
            Edit {
                first: 25,
                last: 24,
                lines: "\"DATA\",\"PA\",\"Abbreviation\"\r\n",
            },
            Edit {
                first: 27,
                last: 30,
                lines: "\"HEADING\",\"LOCA_ID\",\"LOCA_TYPE\"\r\n\"UNIT\",\"\",\"\"\r\n\"TYPE\",\"ID\",\"PA\"\r\n\"DATA\",\"BH1\",\"CP+RC\"\r\n\r\n\"GROUP\",\"ABBR\"\r\n\"HEADING\",\"ABBR_HDNG\",\"ABBR_CODE\"\r\n\"UNIT\",\"\",\"\"\r\n\"TYPE\",\"X\",\"X\"\r\n\"DATA\",\"LOCA_TYPE\",\"CP\"\r\n\"DATA\",\"LOCA_TYPE\",\"RC\"\r\n",
            },
        ],
        want: "clean",
    },
    Case {
        name: "the whole listed and no part",
        file: Base::A,
        edits: &[
            Edit {
                first: 25,
                last: 24,
                lines: "\"DATA\",\"PA\",\"Abbreviation\"\r\n",
            },
            Edit {
                first: 27,
                last: 30,
                lines: "\"HEADING\",\"LOCA_ID\",\"LOCA_TYPE\"\r\n\"UNIT\",\"\",\"\"\r\n\"TYPE\",\"ID\",\"PA\"\r\n\"DATA\",\"BH1\",\"CP+RC\"\r\n\r\n\"GROUP\",\"ABBR\"\r\n\"HEADING\",\"ABBR_HDNG\",\"ABBR_CODE\"\r\n\"UNIT\",\"\",\"\"\r\n\"TYPE\",\"X\",\"X\"\r\n\"DATA\",\"LOCA_TYPE\",\"CP+RC\"\r\n",
            },
        ],
        want: "clean",
    },
];

/// Record links and file sets.
pub static LINKS: &[Case] = &[
    Case {
        name: "a record link to no row",
        file: Base::C,
        edits: &[Edit {
            first: 39,
            last: 39,
            lines: "\"DATA\",\"BH1\",\"1.50\",\"S1\",\"SAMP|BH1|9.00|S9\"\r\n",
        }],
        want: "11c 39 SAMP_LINK;",
    },
    Case {
        name: "one part of two to no row",
        file: Base::C,
        edits: &[Edit {
            first: 39,
            last: 39,
            lines: "\"DATA\",\"BH1\",\"1.50\",\"S1\",\"SAMP|BH1|3.00|S9+SAMP|BH1|9.00|S9\"\r\n",
        }],
        want: "11c 39 SAMP_LINK;",
    },
    Case {
        name: "a link with an empty part",
        file: Base::C,
        edits: &[Edit {
            first: 39,
            last: 39,
            lines: "\"DATA\",\"BH1\",\"1.50\",\"S1\",\"SAMP|BH1|3.00|S9+\"\r\n",
        }],
        want: "11c 39 SAMP_LINK;",
    },
    Case {
        name: "a link without the last key entry",
        file: Base::C,
        edits: &[Edit {
            first: 39,
            last: 39,
            lines: "\"DATA\",\"BH1\",\"1.50\",\"S1\",\"SAMP|BH1|3.00\"\r\n",
        }],
        want: "11c 39 SAMP_LINK;",
    },
    Case {
        name: "a link to the row of PROJ",
        file: Base::C,
        edits: &[Edit {
            first: 39,
            last: 39,
            lines: "\"DATA\",\"BH1\",\"1.50\",\"S1\",\"PROJ|P7\"\r\n",
        }],
        want: "clean",
    },
    Case {
        name: "a file set without a group FILE",
        file: Base::A,
        edits: &[Edit {
            first: 27,
            last: 30,
            lines: "\"HEADING\",\"LOCA_ID\",\"FILE_FSET\"\r\n\"UNIT\",\"\",\"\"\r\n\"TYPE\",\"ID\",\"X\"\r\n\"DATA\",\"BH1\",\"F1\"\r\n",
        }],
        want: "20 30 FILE_FSET;",
    },
    Case {
        name: "a file set that FILE lists",
        file: Base::A,
        edits: &[Edit {
            first: 27,
            last: 30,
            lines: "\"HEADING\",\"LOCA_ID\",\"FILE_FSET\"\r\n\"UNIT\",\"\",\"\"\r\n\"TYPE\",\"ID\",\"X\"\r\n\"DATA\",\"BH1\",\"F1\"\r\n\r\n\"GROUP\",\"FILE\"\r\n\"HEADING\",\"FILE_FSET\",\"FILE_NAME\"\r\n\"UNIT\",\"\",\"\"\r\n\"TYPE\",\"X\",\"X\"\r\n\"DATA\",\"F1\",\"log.pdf\"\r\n",
        }],
        want: "clean",
    },
];
