//! How lines should be.
ghost use Rattle.std.specs.Prelude.{◌≡◌};
ghost use Rattle.osc_script.specs.Forms as spec;

/// How a line that begins with this word should be, in words.
pub fn form_of(word: &str) -> &'static str
    ensures { result.now ≡ spec.form_of word.now }
{
    match word {
        "put" =>
            "put PATH FORMAT BYTES, before the first event, once for a path: FORMAT a number or none, BYTES at most 512 as ff+61*12 or -",
        "open" => "open PATH, before the first event: PATH as /a/b",
        "revoked" => {
            "revoked PATH, before the first event, once: PATH as /revoked, of at most 4 segments"
        }
        "grant" => {
            "grant CLIENT SCOPE [nbf=N] [exp=N] [alg=30], before the first event, once for a client: SCOPE as /log:GET+POST,/t:GET, with GET, POST, PUT, DELETE and SUB"
        }
        "proxy" => "proxy PROXY, before the first event: PROXY p1 to p9",
        "via" => "via CLIENT PROXY, before the first event, once for a client, after its grant",
        "at" => "at MS: a number that is not below the last one",
        "draw" => "draw HEX16: 16 hexadecimal digits",
        "drop" => "drop K: a number",
        "skip" => "skip CLIENT N: a client that has a grant, and a number up to 1099511627775",
        "exchange" => "exchange CLIENT: a client that has a grant, c1 to c9",
        "ask" =>
            "ask CLIENT METHOD PATH BYTES: a client that has a grant, GET, POST, PUT or DELETE, a path as /a/b, and bytes as ff+61*12 or -",
        "tick" => "tick NODE: s, a client that has a grant, or a proxy that a line above makes",
        "restart" =>
            "restart NODE: s, a client that has a grant, or a proxy that a line above makes",
        "deliver" => "deliver K: a number",
        "alter" => "alter K OFFSET HEX ..: numbers, and two hexadecimal digits after each offset",
        "graft" => "graft J K: two numbers",
        "inject" => {
            "inject FROM TO BYTES: two nodes, each s, x, a client that has a grant or a proxy that a line above makes, and bytes as ff+61*12 or -"
        }
        "lie" => "lie CLIENT NUMBER METHOD PATH BYTES: as ask, with a number up to 1099511627775",
        "quiet" => "quiet, alone",
        _ => {
            "a line of put, open, revoked, grant, proxy, via, at, draw, drop, skip, exchange, ask, tick, restart, deliver, alter, graft, inject, lie or quiet, with one space between words"
        }
    }
}
