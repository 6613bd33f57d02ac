//! The times of the log's lines.
use httpdate::HttpDate;
use std::fmt;

/// A time in seconds since 1970, as RFC 3339 writes it in UTC, or `-` where the clock fails.
#[derive(Clone, Copy)]
pub struct LogTime(pub Option<u64>);

/// Returns the number of a month by its name in a date of HTTP (RFC 9110, section 5.6.7).
fn month_number(name: &str) -> &'static str {
    match name {
        "Jan" => "01",
        "Feb" => "02",
        "Mar" => "03",
        "Apr" => "04",
        "May" => "05",
        "Jun" => "06",
        "Jul" => "07",
        "Aug" => "08",
        "Sep" => "09",
        "Oct" => "10",
        "Nov" => "11",
        _ => "12",
    }
}

/// Writes a date of HTTP, as `Sun, 06 Nov 1994 08:49:37 GMT`, in the form of RFC 3339.
fn write_date<W: fmt::Write>(f: &mut fmt::Formatter<W>, date: &[u8; 29]) -> fmt::Result {
    let day = str::from_utf8(&date[5..7]).unwrap_or("");
    let month = month_number(str::from_utf8(&date[8..11]).unwrap_or(""));
    let year = str::from_utf8(&date[12..16]).unwrap_or("");
    let time = str::from_utf8(&date[17..25]).unwrap_or("");
    write!(f, "{year}-{month}-{day}T{time}Z")
}

impl fmt::Display for LogTime {
    fn fmt<W: fmt::Write>(&self, f: &mut fmt::Formatter<W>) -> fmt::Result {
        let Some(seconds) = self.0 else {
            return f.write_str("-");
        };
        match HttpDate::from_unix_secs(seconds) {
            Ok(date) => write_date(f, &date.to_bytes()),
            Err(_) => f.write_str("-"),
        }
    }
}
