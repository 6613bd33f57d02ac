//! What a server adds by option: the fields of the CORS protocol (Fetch standard, section 3.3), and the answer to a preflight. It also says
//! that the hundredth answer is the last. The heads are written by hand from the standards.
use super::driving::{ASKS_A, give, publish, server_of_two, take};
use assertion_support::expect_eq;
use cog_server::{Additions, Connection, Ended, Server, Service};
use std::process::Abort;
use std::test::Fail;

/// A row has an origin that is allowed, a request, the status of its answer, and its text.
type Row = (Option<&'static str>, &'static str, u16, &'static str);

const MAPS: Option<&str> = Some("https://maps.example");

const ALL: Option<&str> = Some("*");

const PREFLIGHT: &str =
    "OPTIONS /a HTTP/1.1\r\nHost: h\r\nOrigin: https://maps.example\r\nAccess-Control-Request-Method: GET\r\n\r\n";

#[rattlefmt::skip]
const ROWS: [Row; 12] = [
    (None, "GET /c HTTP/1.1\r\nHost: h\r\n\r\n", 404, "HTTP/1.1 404 Not Found\r\nContent-Length: 0\r\n\r\n"),
    (ALL, "GET /c HTTP/1.1\r\nHost: h\r\n\r\n", 404, "HTTP/1.1 404 Not Found\r\nContent-Length: 0\r\nAccess-Control-Allow-Origin: *\r\nAccess-Control-Expose-Headers: ETag, Content-Range, Content-Length, Accept-Ranges\r\n\r\n"),
    (MAPS, "GET /c HTTP/1.1\r\nHost: h\r\n\r\n", 404, "HTTP/1.1 404 Not Found\r\nContent-Length: 0\r\nAccess-Control-Allow-Origin: https://maps.example\r\nVary: Origin\r\nAccess-Control-Expose-Headers: ETag, Content-Range, Content-Length, Accept-Ranges\r\n\r\n"),
    (ALL, "GET /c HTTP/1.1\r\nHost: h\r\nConnection: close\r\n\r\n", 404, "HTTP/1.1 404 Not Found\r\nContent-Length: 0\r\nAccess-Control-Allow-Origin: *\r\nAccess-Control-Expose-Headers: ETag, Content-Range, Content-Length, Accept-Ranges\r\nConnection: close\r\n\r\n"),
    (ALL, "no head\r\n\r\n", 400, "HTTP/1.1 400 Bad Request\r\nContent-Length: 0\r\nAccess-Control-Allow-Origin: *\r\nAccess-Control-Expose-Headers: ETag, Content-Range, Content-Length, Accept-Ranges\r\nConnection: close\r\n\r\n"),
    (ALL, "POST /a HTTP/1.1\r\nHost: h\r\n\r\n", 405, "HTTP/1.1 405 Method Not Allowed\r\nAllow: GET, HEAD\r\nContent-Length: 0\r\nAccess-Control-Allow-Origin: *\r\nAccess-Control-Expose-Headers: ETag, Content-Range, Content-Length, Accept-Ranges\r\n\r\n"),
    (None, PREFLIGHT, 405, "HTTP/1.1 405 Method Not Allowed\r\nAllow: GET, HEAD\r\nContent-Length: 0\r\n\r\n"),
    (MAPS, PREFLIGHT, 204, "HTTP/1.1 204 No Content\r\nAccess-Control-Allow-Methods: GET, HEAD\r\nAccess-Control-Allow-Headers: Range, If-Range, If-Match, If-None-Match\r\nAccess-Control-Max-Age: 86400\r\nAccess-Control-Allow-Origin: https://maps.example\r\nVary: Origin\r\nAccess-Control-Expose-Headers: ETag, Content-Range, Content-Length, Accept-Ranges\r\n\r\n"),
    (ALL, "OPTIONS * HTTP/1.1\r\nHost: h\r\nAccess-Control-Request-Method: GET\r\nConnection: close\r\n\r\n", 204, "HTTP/1.1 204 No Content\r\nAccess-Control-Allow-Methods: GET, HEAD\r\nAccess-Control-Allow-Headers: Range, If-Range, If-Match, If-None-Match\r\nAccess-Control-Max-Age: 86400\r\nAccess-Control-Allow-Origin: *\r\nAccess-Control-Expose-Headers: ETag, Content-Range, Content-Length, Accept-Ranges\r\nConnection: close\r\n\r\n"),
    (ALL, "OPTIONS /a HTTP/1.1\r\nHost: h\r\n\r\n", 405, "HTTP/1.1 405 Method Not Allowed\r\nAllow: GET, HEAD\r\nContent-Length: 0\r\nAccess-Control-Allow-Origin: *\r\nAccess-Control-Expose-Headers: ETag, Content-Range, Content-Length, Accept-Ranges\r\n\r\n"),
    (ALL, "options /a HTTP/1.1\r\nHost: h\r\nAccess-Control-Request-Method: GET\r\n\r\n", 405, "HTTP/1.1 405 Method Not Allowed\r\nAllow: GET, HEAD\r\nContent-Length: 0\r\nAccess-Control-Allow-Origin: *\r\nAccess-Control-Expose-Headers: ETag, Content-Range, Content-Length, Accept-Ranges\r\n\r\n"),
    (ALL, "OPTIONS /a HTTP/1.1\r\nAccess-Control-Request-Method: GET\r\n\r\n", 400, "HTTP/1.1 400 Bad Request\r\nContent-Length: 0\r\nAccess-Control-Allow-Origin: *\r\nAccess-Control-Expose-Headers: ETag, Content-Range, Content-Length, Accept-Ranges\r\nConnection: close\r\n\r\n"),
];

/// Expects an answer of this status and text.
fn expect_answer(
    rt: &(impl Abort + AllocGlobal),
    server: &Server,
    additions: Additions<'_>,
    request: &[u8],
    (status, want): (u16, &str),
) -> Result<(), Fail> {
    let service = Service::new(server, additions);
    let mut connection = Connection::new(rt.alloc());
    give(&mut connection, request)?;
    let answered = connection.go_on_by(&service)?;
    expect_eq!(rt; answered, Some(status));
    let mut text = Vec::new(rt.alloc());
    take(&mut connection, usize::MAX, &mut text)?;
    assert_eq!(rt; str::from_utf8(&text), Ok(want));
    Ok(())
}

/// Returns what is added for an origin, if one is allowed.
fn additions_for(origin: Option<&str>) -> Additions<'_> {
    let origin = match origin {
        Some(origin) => Some(origin.as_bytes()),
        None => None,
    };
    Additions {
        origin,
        announces_last: false,
    }
}

#[test]
fn adds_the_fields_of_an_origin(rt: HostRuntime) -> Result<(), Fail> {
    let server = server_of_two(rt.alloc())?;
    for (origin, request, status, want) in ROWS {
        let additions = additions_for(origin);
        expect_answer(&rt, &server, additions, request.as_bytes(), (status, want))?;
    }
    Ok(())
}

/// Asks once, and returns whether the answer says that the connection closes.
fn is_last(
    rt: &impl AllocGlobal,
    connection: &mut Connection,
    service: &Service<'_>,
) -> Result<bool, Fail> {
    give(connection, ASKS_A)?;
    connection.go_on_by(service)?;
    let mut text = Vec::new(rt.alloc());
    take(connection, usize::MAX, &mut text)?;
    let Ok(text) = str::from_utf8(&text) else {
        return Err(Fail::new("not text"));
    };
    Ok(text.contains("\r\nConnection: close\r\n\r\n"))
}

#[test]
fn announces_the_hundredth_answer(rt: HostRuntime) -> Result<(), Fail> {
    let server = server_of_two(rt.alloc())?;
    let additions = Additions {
        origin: None,
        announces_last: true,
    };
    let service = Service::new(&server, additions);
    let mut connection = Connection::new(rt.alloc());
    for count in 1..101 {
        let last = is_last(&rt, &mut connection, &service)?;
        expect_eq!(rt; last, count == 100);
    }
    expect_eq!(rt; connection.ended(), Some(Ended::Closed));
    Ok(())
}

/// Expects that a file that is replaced while its answer waits is kept, and is noted as one that is no longer published.
#[test]
fn notes_bytes_of_a_replaced_file(rt: HostRuntime) -> Result<(), Fail> {
    let mut server = server_of_two(rt.alloc())?;
    let mut connection = Connection::new(rt.alloc());
    give(&mut connection, ASKS_A)?;
    connection.go_on(&server)?;
    let before = connection.is_outdated(&server);
    publish(rt.alloc(), &mut server, b"b", 3, 9)?;
    let another = connection.is_outdated(&server);
    publish(rt.alloc(), &mut server, b"a", 4, 9)?;
    let replaced = connection.is_outdated(&server);
    take(&mut connection, usize::MAX, &mut Vec::new(rt.alloc()))?;
    expect_eq!(rt; (before, another, replaced, connection.is_outdated(&server)), (false, false, true, false));
    Ok(())
}
