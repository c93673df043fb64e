//! Files in AGS4.

/// A file of five groups, 30 lines, 543 bytes.
pub const FILE_A: &[u8] = b"\
\"GROUP\",\"PROJ\"\r\n\
\"HEADING\",\"PROJ_ID\",\"PROJ_NAME\"\r\n\
\"UNIT\",\"\",\"\"\r\n\
\"TYPE\",\"ID\",\"X\"\r\n\
\"DATA\",\"P7\",\"North bank\"\r\n\
\r\n\
\"GROUP\",\"TRAN\"\r\n\
\"HEADING\",\"TRAN_ISNO\",\"TRAN_DLIM\",\"TRAN_RCON\"\r\n\
\"UNIT\",\"\",\"\",\"\"\r\n\
\"TYPE\",\"X\",\"X\",\"X\"\r\n\
\"DATA\",\"1\",\"|\",\"+\"\r\n\
\r\n\
\"GROUP\",\"UNIT\"\r\n\
\"HEADING\",\"UNIT_UNIT\",\"UNIT_DESC\"\r\n\
\"UNIT\",\"\",\"\"\r\n\
\"TYPE\",\"X\",\"X\"\r\n\
\"DATA\",\"m\",\"metre\"\r\n\
\r\n\
\"GROUP\",\"TYPE\"\r\n\
\"HEADING\",\"TYPE_TYPE\",\"TYPE_DESC\"\r\n\
\"UNIT\",\"\",\"\"\r\n\
\"TYPE\",\"X\",\"X\"\r\n\
\"DATA\",\"ID\",\"Unique identifier\"\r\n\
\"DATA\",\"X\",\"Text\"\r\n\
\r\n\
\"GROUP\",\"LOCA\"\r\n\
\"HEADING\",\"LOCA_ID\"\r\n\
\"UNIT\",\"\"\r\n\
\"TYPE\",\"ID\"\r\n\
\"DATA\",\"BH1\"\r\n\
";

/// The first file with boreholes, samples and a laboratory test: 47 lines, 1,048 bytes.
pub const FILE_B: &[u8] = b"\
\"GROUP\",\"PROJ\"\r\n\
\"HEADING\",\"PROJ_ID\",\"PROJ_NAME\"\r\n\
\"UNIT\",\"\",\"\"\r\n\
\"TYPE\",\"ID\",\"X\"\r\n\
\"DATA\",\"P7\",\"North bank\"\r\n\
\r\n\
\"GROUP\",\"TRAN\"\r\n\
\"HEADING\",\"TRAN_ISNO\",\"TRAN_DLIM\",\"TRAN_RCON\"\r\n\
\"UNIT\",\"\",\"\",\"\"\r\n\
\"TYPE\",\"X\",\"X\",\"X\"\r\n\
\"DATA\",\"1\",\"|\",\"+\"\r\n\
\r\n\
\"GROUP\",\"UNIT\"\r\n\
\"HEADING\",\"UNIT_UNIT\",\"UNIT_DESC\"\r\n\
\"UNIT\",\"\",\"\"\r\n\
\"TYPE\",\"X\",\"X\"\r\n\
\"DATA\",\"m\",\"metre\"\r\n\
\r\n\
\"GROUP\",\"TYPE\"\r\n\
\"HEADING\",\"TYPE_TYPE\",\"TYPE_DESC\"\r\n\
\"UNIT\",\"\",\"\"\r\n\
\"TYPE\",\"X\",\"X\"\r\n\
\"DATA\",\"ID\",\"Unique identifier\"\r\n\
\"DATA\",\"X\",\"Text\"\r\n\
\"DATA\",\"2DP\",\"Two decimals\"\r\n\
\"DATA\",\"RL\",\"Record link\"\r\n\
\r\n\
\"GROUP\",\"LOCA\"\r\n\
\"HEADING\",\"LOCA_ID\",\"LOCA_STAT\"\r\n\
\"UNIT\",\"\",\"\"\r\n\
\"TYPE\",\"ID\",\"X\"\r\n\
\"DATA\",\"BH1\",\"FINAL\"\r\n\
\"DATA\",\"BH2\",\"PRELIM\"\r\n\
\r\n\
\"GROUP\",\"SAMP\"\r\n\
\"HEADING\",\"LOCA_ID\",\"SAMP_TOP\",\"SAMP_REF\",\"SAMP_LINK\"\r\n\
\"UNIT\",\"\",\"m\",\"\",\"\"\r\n\
\"TYPE\",\"ID\",\"2DP\",\"X\",\"RL\"\r\n\
\"DATA\",\"BH1\",\"1.50\",\"S1\",\"\"\r\n\
\"DATA\",\"BH2\",\"2.00\",\"S2\",\"\"\r\n\
\r\n\
\"GROUP\",\"LNMC\"\r\n\
\"HEADING\",\"LOCA_ID\",\"SAMP_TOP\",\"SAMP_REF\",\"SPEC_DPTH\",\"LNMC_MC\"\r\n\
\"UNIT\",\"\",\"m\",\"\",\"m\",\"\"\r\n\
\"TYPE\",\"ID\",\"2DP\",\"X\",\"2DP\",\"X\"\r\n\
\"DATA\",\"BH1\",\"1.50\",\"S1\",\"1.55\",\"23\"\r\n\
\"DATA\",\"BH2\",\"2.00\",\"S2\",\"2.05\",\"18.4\"\r\n\
";

/// The second file with a ring of record links: 49 lines, 1,153 bytes.
pub const FILE_C: &[u8] = b"\
\"GROUP\",\"PROJ\"\r\n\
\"HEADING\",\"PROJ_ID\",\"PROJ_NAME\"\r\n\
\"UNIT\",\"\",\"\"\r\n\
\"TYPE\",\"ID\",\"X\"\r\n\
\"DATA\",\"P7\",\"North bank\"\r\n\
\r\n\
\"GROUP\",\"TRAN\"\r\n\
\"HEADING\",\"TRAN_ISNO\",\"TRAN_DLIM\",\"TRAN_RCON\"\r\n\
\"UNIT\",\"\",\"\",\"\"\r\n\
\"TYPE\",\"X\",\"X\",\"X\"\r\n\
\"DATA\",\"1\",\"|\",\"+\"\r\n\
\r\n\
\"GROUP\",\"UNIT\"\r\n\
\"HEADING\",\"UNIT_UNIT\",\"UNIT_DESC\"\r\n\
\"UNIT\",\"\",\"\"\r\n\
\"TYPE\",\"X\",\"X\"\r\n\
\"DATA\",\"m\",\"metre\"\r\n\
\r\n\
\"GROUP\",\"TYPE\"\r\n\
\"HEADING\",\"TYPE_TYPE\",\"TYPE_DESC\"\r\n\
\"UNIT\",\"\",\"\"\r\n\
\"TYPE\",\"X\",\"X\"\r\n\
\"DATA\",\"ID\",\"Unique identifier\"\r\n\
\"DATA\",\"X\",\"Text\"\r\n\
\"DATA\",\"2DP\",\"Two decimals\"\r\n\
\"DATA\",\"RL\",\"Record link\"\r\n\
\r\n\
\"GROUP\",\"LOCA\"\r\n\
\"HEADING\",\"LOCA_ID\",\"LOCA_STAT\"\r\n\
\"UNIT\",\"\",\"\"\r\n\
\"TYPE\",\"ID\",\"X\"\r\n\
\"DATA\",\"BH1\",\"FINAL\"\r\n\
\"DATA\",\"BH2\",\"FINAL\"\r\n\
\r\n\
\"GROUP\",\"SAMP\"\r\n\
\"HEADING\",\"LOCA_ID\",\"SAMP_TOP\",\"SAMP_REF\",\"SAMP_LINK\"\r\n\
\"UNIT\",\"\",\"m\",\"\",\"\"\r\n\
\"TYPE\",\"ID\",\"2DP\",\"X\",\"RL\"\r\n\
\"DATA\",\"BH1\",\"1.50\",\"S1\",\"SAMP|BH1|3.00|S9\"\r\n\
\"DATA\",\"BH2\",\"2.00\",\"S2\",\"\"\r\n\
\"DATA\",\"BH1\",\"3.00\",\"S9\",\"SAMP|BH1|1.50|S1\"\r\n\
\"DATA\",\"BH1\",\"4.00\",\"S4\",\"SAMP|BH1|1.50|S1\"\r\n\
\r\n\
\"GROUP\",\"LNMC\"\r\n\
\"HEADING\",\"LOCA_ID\",\"SAMP_TOP\",\"SAMP_REF\",\"SPEC_DPTH\",\"LNMC_MC\"\r\n\
\"UNIT\",\"\",\"m\",\"\",\"m\",\"\"\r\n\
\"TYPE\",\"ID\",\"2DP\",\"X\",\"2DP\",\"X\"\r\n\
\"DATA\",\"BH1\",\"1.50\",\"S1\",\"1.55\",\"23\"\r\n\
\"DATA\",\"BH2\",\"2.00\",\"S2\",\"2.05\",\"18.4\"\r\n\
";
