//! Requests and their replies, as texts and as bytes. A function that names a constant carries it to each of its
//! points, so tables are statics.

/// At an empty desk, one after the other. Each line is a case: day, token (`-`: no field), the lines of the head, the
/// body (`A` is the file, `A cut` all but its last byte, `A more` has two bytes after it, `A bell`, `A delete` and
/// `A quote` have other bytes in a group name), the status, the length, and the body of the reply.
pub(crate) static AT_A_DESK: &str = r#"
# each refusal before the next
2024-05-01 | - | GET /v1/x HTTP/1.1 | - | 404 Not Found | 20 | {"error":"no route"}
2024-05-01 | - | PUT /v1/x HTTP/1.1 | - | 404 Not Found | 20 | {"error":"no route"}
2024-05-01 | - | PUT /v1/projects/N1/check HTTP/1.1 | - | 405 Method Not Allowed | 18 | {"error":"method"}
2024-05-01 | - | POST /v1/projects/N1/check HTTP/1.1 | - | 401 Unauthorized | 21 | {"error":"no caller"}
2024-05-01 | t-echo | POST /v1/projects/N1/check HTTP/1.1 | - | 411 Length Required | 27 | {"error":"length required"}
2024-05-01 | t-echo | POST /v1/projects/N1/check HTTP/1.1; Transfer-Encoding: chunked; Content-Length: 1; Content-Length: 1 | - | 411 Length Required | 27 | {"error":"length required"}
2024-05-01 | t-echo | POST /v1/projects/N1/check HTTP/1.1; Content-Length: 16777217; Content-Length: 16777217 | - | 400 Bad Request | 22 | {"error":"bad length"}
2024-05-01 | t-echo | POST /v1/projects/N1/check?a=b HTTP/1.1; Content-Length: x | - | 400 Bad Request | 22 | {"error":"bad length"}
2024-05-01 | t-echo | POST /v1/projects/N1/check HTTP/1.1; Content-Length: 16777217 | - | 413 Payload Too Large | 21 | {"error":"too large"}
2024-05-01 | t-echo | POST /v1/projects/N1/check?a=b HTTP/1.1; Content-Length: 16777217 | - | 413 Payload Too Large | 21 | {"error":"too large"}
2024-05-01 | t-gamma | POST /v1/projects/N1/deposits HTTP/1.1; Content-Length: 16777217 | - | 413 Payload Too Large | 21 | {"error":"too large"}
2024-05-01 | t-echo | POST /v1/projects/N1/check HTTP/1.1; Content-Length: 4194305 | - | 400 Bad Request | 22 | {"error":"short body"}
2024-05-01 | t-echo | POST /v1/projects/N1/check?a=b HTTP/1.1; Content-Length: 543 | A cut | 400 Bad Request | 25 | {"error":"bad parameter"}
2024-05-01 | t-echo | POST /v1/projects/N1/check HTTP/1.1; Content-Length: 543 | A cut | 400 Bad Request | 22 | {"error":"short body"}
2024-05-01 | t-gamma | POST /v1/projects/N1/deposits HTTP/1.1; Content-Length: 543 | A cut | 400 Bad Request | 22 | {"error":"short body"}
2024-05-01 | t-gamma | POST /v1/projects/N1/deposits?embargo=2024-06-01 HTTP/1.1; Content-Length: 543 | A | 403 Forbidden | 12 | {"denied":5}
2024-05-01 | - | POST /v1/projects/N1/deposits?embargo=2024-06-01 HTTP/1.1; Content-Length: 543 | A | 401 Unauthorized | 21 | {"error":"no caller"}
# routes and methods
2024-05-01 | t-delta | GET /v1/projects//deposits HTTP/1.1 | - | 404 Not Found | 20 | {"error":"no route"}
2024-05-01 | t-delta | GET /v1/projects/N1/deposits/ HTTP/1.1 | - | 404 Not Found | 20 | {"error":"no route"}
2024-05-01 | t-delta | GET /v1/projects/N1/deposits/1/2 HTTP/1.1 | - | 404 Not Found | 20 | {"error":"no route"}
2024-05-01 | t-delta | DELETE /v1/projects/N1/deposits HTTP/1.1 | - | 405 Method Not Allowed | 18 | {"error":"method"}
2024-05-01 | t-delta | DELETE /v1/projects/N1/check HTTP/1.1 | - | 405 Method Not Allowed | 18 | {"error":"method"}
2024-05-01 | t-delta | POST /v1/projects/N1/deposits/1 HTTP/1.1 | - | 405 Method Not Allowed | 18 | {"error":"method"}
2024-05-01 | t-delta | HEAD /v1/projects/N1/deposits HTTP/1.1 | - | 405 Method Not Allowed | 18 | {"error":"method"}
2024-05-01 | t-delta | get /v1/projects/N1/deposits HTTP/1.1 | - | 405 Method Not Allowed | 18 | {"error":"method"}
# callers
2024-05-01 | T-DELTA | GET /v1/projects/N1/deposits HTTP/1.1 | - | 401 Unauthorized | 21 | {"error":"no caller"}
2024-05-01 | - | GET /v1/projects/N1/deposits HTTP/1.1; Authorization: Bearer  t-delta | - | 401 Unauthorized | 21 | {"error":"no caller"}
2024-05-01 | - | GET /v1/projects/N1/deposits HTTP/1.1; Authorization: bearer t-delta | - | 401 Unauthorized | 21 | {"error":"no caller"}
2024-05-01 | t-delta | GET /v1/projects/N1/deposits HTTP/1.1; authorization: Bearer t-delta | - | 401 Unauthorized | 21 | {"error":"no caller"}
# lengths
2024-05-01 | t-echo | POST /v1/projects/N1/check HTTP/1.1; Content-Length: 00000000543 | A | 400 Bad Request | 22 | {"error":"bad length"}
2024-05-01 | t-echo | POST /v1/projects/N1/check HTTP/1.1; Content-Length: +543 | A | 400 Bad Request | 22 | {"error":"bad length"}
2024-05-01 | t-echo | POST /v1/projects/N1/check HTTP/1.1; Content-Length: 543; content-length: 543 | A | 400 Bad Request | 22 | {"error":"bad length"}
2024-05-01 | t-echo | POST /v1/projects/N1/check HTTP/1.1; Transfer-Encoding:; Content-Length: 543 | A | 411 Length Required | 27 | {"error":"length required"}
2024-05-01 | t-echo | POST /v1/projects/N1/check HTTP/1.1; CONTENT-LENGTH: 0000000543 | A | 200 OK | 14 | {"clean":true}
2024-05-01 | t-delta | GET /v1/projects/N1/deposits HTTP/1.1; Content-Length: x; Transfer-Encoding: y | - | 200 OK | 15 | {"deposits":[]}
# parameters
2024-05-01 | t-echo | GET /v1/projects/N1/deposits/007 HTTP/1.1 | - | 400 Bad Request | 25 | {"error":"bad parameter"}
2024-05-01 | t-echo | GET /v1/projects/N1/deposits/0 HTTP/1.1 | - | 400 Bad Request | 25 | {"error":"bad parameter"}
2024-05-01 | t-echo | GET /v1/projects/N1/deposits/1234567 HTTP/1.1 | - | 400 Bad Request | 25 | {"error":"bad parameter"}
2024-05-01 | t-echo | GET /v1/projects/N%31/deposits HTTP/1.1 | - | 400 Bad Request | 25 | {"error":"bad parameter"}
2024-05-01 | t-echo | GET /v1/projects/N1/deposits?embargo=2024-06-01 HTTP/1.1 | - | 400 Bad Request | 25 | {"error":"bad parameter"}
2024-05-01 | t-echo | GET /v1/projects/N1/deposits/1?groups=LOCA&groups=LOCA HTTP/1.1 | - | 400 Bad Request | 25 | {"error":"bad parameter"}
2024-05-01 | t-echo | GET /v1/projects/N1/deposits/1?groups=LOCA, HTTP/1.1 | - | 400 Bad Request | 25 | {"error":"bad parameter"}
2024-05-01 | t-echo | GET /v1/projects/N1/deposits/1?groups=loca HTTP/1.1 | - | 400 Bad Request | 25 | {"error":"bad parameter"}
2024-05-01 | t-echo | GET /v1/projects/N1/deposits/1?groups=LO+CA HTTP/1.1 | - | 400 Bad Request | 25 | {"error":"bad parameter"}
2024-05-01 | t-echo | GET /v1/projects/N1/deposits/1?groups=LOCA&%67roups=LOCA HTTP/1.1 | - | 400 Bad Request | 25 | {"error":"bad parameter"}
2024-05-01 | t-echo | GET /v1/projects/N1/deposits?x HTTP/1.1 | - | 400 Bad Request | 25 | {"error":"bad parameter"}
2024-05-01 | t-delta | POST /v1/projects/N1/deposits?embargo HTTP/1.1; Content-Length: 543 | A | 400 Bad Request | 25 | {"error":"bad parameter"}
2024-05-01 | t-delta | POST /v1/projects/N1/deposits?embargo=2024-6-1 HTTP/1.1; Content-Length: 543 | A | 400 Bad Request | 25 | {"error":"bad parameter"}
2024-05-01 | t-echo | GET /v1/projects/N1/deposits?&& HTTP/1.1 | - | 200 OK | 15 | {"deposits":[]}
2024-05-01 | t-echo | GET /v1/projects/N1/deposits? HTTP/1.1 | - | 200 OK | 15 | {"deposits":[]}
2024-05-01 | t-echo | GET /v1/projects/N1/deposits/1?%67roups=LOCA%2CSAMP HTTP/1.1 | - | 404 Not Found | 19 | {"error":"unknown"}
# answers
2024-05-01 | t-echo | POST /v1/projects/N1/check HTTP/1.1; Content-Length: 543 | A | 200 OK | 14 | {"clean":true}
2024-05-01 | t-echo | POST /v1/projects/N1/check HTTP/1.1; Content-Length: 543 | A more | 200 OK | 14 | {"clean":true}
2024-05-01 | t-echo | POST /v1/projects/N1/check HTTP/1.1; Content-Length: 0 | A | 422 Unprocessable Entity | 49 | {"findings":[{"code":"2","line":0,"subject":""}]}
2024-05-01 | t-echo | POST /v1/projects/N1/check HTTP/1.1; Content-Length: 1 | x | 422 Unprocessable Entity | 49 | {"findings":[{"code":"5","line":1,"subject":""}]}
2024-05-01 | t-echo | POST /v1/projects/N1/check HTTP/1.1; Content-Length: 544 | A bell | 422 Unprocessable Entity | 56 | {"findings":[{"code":"19","line":26,"subject":"lo?ca"}]}
2024-05-01 | t-echo | POST /v1/projects/N1/check HTTP/1.1; Content-Length: 544 | A delete | 422 Unprocessable Entity | 56 | {"findings":[{"code":"19","line":26,"subject":"lo?ca"}]}
2024-05-01 | t-echo | POST /v1/projects/N1/check HTTP/1.1; Content-Length: 544 | A quote | 422 Unprocessable Entity | 57 | {"findings":[{"code":"19","line":26,"subject":"l\"?\\"}]}
2024-05-01 | t-echo | GET /v1/projects/N1/deposits/999 HTTP/1.1 | - | 404 Not Found | 19 | {"error":"unknown"}
2024-05-01 | t-delta | POST /v1/projects/N1/deposits?%65mbargo=2024%2D06-01 HTTP/1.1; Content-Length: 543 | A | 200 OK | 35 | {"embargo":"2024-06-01","number":1}
2024-05-01 | t-delta | POST /v1/projects/N1/deposits?embargo=2030-01-01 HTTP/1.1; Content-Length: 543 | A | 200 OK | 35 | {"embargo":"2024-06-01","number":1}
2024-05-01 | t-foxtrot | POST /v1/projects/N1/deposits HTTP/1.1; Content-Length: 543 | A | 200 OK | 35 | {"embargo":"2024-05-01","number":2}
2024-05-01 | t-delta | GET /v1/projects/N1/deposits/1 HTTP/1.1 | - | 200 OK | 543 | A
2024-05-01 | t-delta | GET /v1/projects/N1/deposits/1?groups HTTP/1.1 | - | 200 OK | 543 | A
2024-05-01 | t-delta | GET /v1/projects/N1/deposits/1?groups=LOCA,PROJ HTTP/1.1 | - | 200 OK | 543 | A
2024-05-31 | t-echo | GET /v1/projects/N1/deposits/1 HTTP/1.1 | - | 404 Not Found | 19 | {"error":"unknown"}
2024-06-01 | t-echo | GET /v1/projects/N1/deposits/1 HTTP/1.1 | - | 200 OK | 543 | A
2024-05-01 | t-delta | DELETE /v1/projects/N1/deposits/1 HTTP/1.1 | - | 403 Forbidden | 12 | {"denied":0}
2024-05-01 | t-delta | GET /v1/projects/N1/deposits HTTP/1.1 | - | 200 OK | 118 | {"deposits":[{"embargo":"2024-06-01","firm":"Delta","number":1},{"embargo":"2024-05-01","firm":"Foxtrot","number":2}]}
"#;

/// The rule that permits contractors to withdraw, up to the number of the next one.
pub(crate) static WITHDRAWALS: &str = r#"number = 45
effect = "permit"
verb = "withdraw"
role = "contractor"

[[rule]]
"#;

/// The rule of the policy that comes after it.
pub(crate) static RULE_AFTER: &str = "number = 50";

/// At a desk whose policy has that rule.
pub(crate) static AT_A_WITHDRAWING_DESK: &str = r#"
2024-05-01 | t-delta | POST /v1/projects/N1/deposits?embargo=2024-06-01 HTTP/1.1; Content-Length: 543 | A | 200 OK | 35 | {"embargo":"2024-06-01","number":1}
2024-05-01 | t-foxtrot | POST /v1/projects/N1/deposits?embargo=2024-06-01 HTTP/1.1; Content-Length: 543 | A | 200 OK | 35 | {"embargo":"2024-06-01","number":2}
2024-05-01 | - | DELETE /v1/projects/N1/deposits/1 HTTP/1.1 | - | 401 Unauthorized | 21 | {"error":"no caller"}
2024-05-01 | t-delta | DELETE /v1/projects/N1/deposits/1?x HTTP/1.1 | - | 400 Bad Request | 25 | {"error":"bad parameter"}
2024-05-01 | t-delta | DELETE /v1/projects/N1/deposits/01 HTTP/1.1 | - | 400 Bad Request | 25 | {"error":"bad parameter"}
2024-05-01 | t-echo | DELETE /v1/projects/N1/deposits/1 HTTP/1.1 | - | 403 Forbidden | 12 | {"denied":0}
2024-05-01 | t-foxtrot | DELETE /v1/projects/N1/deposits/1 HTTP/1.1 | - | 404 Not Found | 19 | {"error":"unknown"}
2024-05-01 | t-delta | DELETE /v1/projects/N2/deposits/1 HTTP/1.1 | - | 404 Not Found | 19 | {"error":"unknown"}
2024-05-01 | t-delta | DELETE /v1/projects/N1/deposits/9 HTTP/1.1 | - | 404 Not Found | 19 | {"error":"unknown"}
2024-05-01 | t-delta | GET /v1/projects/N1/deposits/1 HTTP/1.1 | - | 200 OK | 543 | A
2024-05-01 | t-delta | DELETE /v1/projects/N1/deposits/1 HTTP/1.1; Content-Length: x; Transfer-Encoding: y | A | 200 OK | 15 | {"withdrawn":1}
2024-05-01 | t-delta | DELETE /v1/projects/N1/deposits/1? HTTP/1.1 | - | 200 OK | 15 | {"withdrawn":1}
2024-06-01 | t-delta | GET /v1/projects/N1/deposits/1 HTTP/1.1 | - | 404 Not Found | 19 | {"error":"unknown"}
2024-06-01 | t-delta | GET /v1/projects/N1/deposits HTTP/1.1 | - | 200 OK | 67 | {"deposits":[{"embargo":"2024-06-01","firm":"Foxtrot","number":2}]}
2024-06-01 | t-delta | POST /v1/projects/N1/deposits HTTP/1.1; Content-Length: 543 | A | 200 OK | 35 | {"embargo":"2024-06-01","number":1}
"#;

/// At a desk that takes one deposit.
pub(crate) static AT_A_FULL_DESK: &str = r#"
2024-05-01 | t-delta | POST /v1/projects/N1/deposits?embargo=2024-06-01 HTTP/1.1; Content-Length: 543 | A | 200 OK | 35 | {"embargo":"2024-06-01","number":1}
2024-05-01 | t-foxtrot | POST /v1/projects/N1/deposits HTTP/1.1; Content-Length: 543 | A | 507 Insufficient Storage | 16 | {"error":"full"}
2024-05-01 | t-delta | POST /v1/projects/N1/deposits HTTP/1.1; Content-Length: 543 | A | 200 OK | 35 | {"embargo":"2024-06-01","number":1}
"#;

/// A line of a dictionary: a heading that each file has to have, with bytes above 127 in its name.
pub(crate) static WIDE_HEADING: &[u8] =
    b"\"DATA\",\"HEADING\",\"LOCA\",\"LOCA_\xc3\x89\",\"REQUIRED\",\"\"\r\n";

/// At a desk whose dictionary has that heading.
pub(crate) static AT_A_WIDE_DESK: &str = r#"
2024-05-01 | t-echo | POST /v1/projects/N1/check HTTP/1.1; Content-Length: 543 | A | 422 Unprocessable Entity | 59 | {"findings":[{"code":"10b","line":27,"subject":"LOCA_??"}]}
"#;

/// Status, length and body of a reply.
const NO_ROUTE: [&str; 3] = ["404 Not Found", "20", r#"{"error":"no route"}"#];

const BAD_HEAD: [&str; 3] = ["400 Bad Request", "20", r#"{"error":"bad head"}"#];

const NO_DEPOSIT: [&str; 3] = ["200 OK", "15", r#"{"deposits":[]}"#];

/// Heads as bytes, with the reply.
pub(crate) static HEADS: [(&[u8], [&str; 3]); 9] = [
    (b"GET /v1/x HTTP/1.2\r\n\r\n", BAD_HEAD),
    (b"GET /v1/projects/N1/deposits HTTP/1.1\r\n", BAD_HEAD),
    (b"GET /v1/x HTTP/1.1\r\nHost : a\r\n\r\n", BAD_HEAD),
    (b"GET /v1/x HTTP/1.1\r\nA: b\r\n c\r\n\r\n", BAD_HEAD),
    (b"GET /v1/x HTTP/1.1\r\nA: b\x07\r\n\r\n", BAD_HEAD),
    (b"GET /v1/\xff HTTP/1.1\r\n\r\n", BAD_HEAD),
    (b"GET /v1/x HTTP/1.1\r\nA: b\tc\r\n\r\n", NO_ROUTE),
    (b"\r\n\r\nGET /v1/x HTTP/1.0\n\n", NO_ROUTE),
    (
        b"GET /v1/projects/N1/deposits HTTP/1.1\r\nAuthorization: \t Bearer t-delta \t\r\n\r\n",
        NO_DEPOSIT,
    ),
];

/// Heads of 32 or 33 fields, and of 8,192 or 8,193 bytes: how long the last field is, how many of one letter come
/// before it, and the reply.
pub(crate) static LONG_HEADS: [(usize, usize, [&str; 3]); 3] = [
    (7979, 31, NO_ROUTE),
    (7980, 31, BAD_HEAD),
    (1, 32, BAD_HEAD),
];

/// A body that a case calls by a name: the file up to one place, the bytes between, and the file from another place on.
#[derive(Clone, Copy)]
pub(crate) struct Altered {
    pub(crate) name: &'static str,
    pub(crate) end: usize,
    pub(crate) between: &'static [u8],
    pub(crate) begin: usize,
}

/// The file, the file without its last byte, the file with two bytes after it, the file with `lo`, a bell and `ca`, or
/// `lo`, a byte 7f and `ca`, or `l`, a quote, a byte 01 and a backslash, for the name in its line 26, and nothing.
pub(crate) static BODIES: [Altered; 7] = [
    Altered {
        name: "A",
        end: 543,
        between: b"",
        begin: 543,
    },
    Altered {
        name: "A cut",
        end: 542,
        between: b"",
        begin: 543,
    },
    Altered {
        name: "A more",
        end: 543,
        between: b"\"x",
        begin: 543,
    },
    Altered {
        name: "A bell",
        end: 477,
        between: b"lo\x07ca",
        begin: 481,
    },
    Altered {
        name: "A delete",
        end: 477,
        between: b"lo\x7fca",
        begin: 481,
    },
    Altered {
        name: "A quote",
        end: 477,
        between: b"l\"\"\x01\\",
        begin: 481,
    },
    Altered {
        name: "-",
        end: 0,
        between: b"",
        begin: 543,
    },
];
