//! A command line, and the plan that it asks for.

/// Who may connect if nothing is said of it: the user and the group of the socket.
const MODE: u32 = 0o660;

/// Where to listen, and for which server.
#[derive(Clone, Copy)]
pub(crate) struct Plan<'a> {
    /// The path of the socket to listen on.
    pub(crate) listen: &'a str,
    /// The path of the server's socket.
    pub(crate) server: &'a str,
    /// The mode of the socket to listen on.
    pub(crate) mode: u32,
}

/// What the words ask for, of which the first is the program's name.
pub(crate) fn plan_of(words: &[String]) -> Option<Plan<'_>> {
    let mut listen = None;
    let mut server = None;
    let mut mode = None;
    let mut rest = words.get(1..)?;
    while let [name, value, later @ ..] = rest {
        let place = match name.as_str() {
            "--listen" => &mut listen,
            "--server" => &mut server,
            "--mode" => &mut mode,
            _ => return None,
        };
        if place.is_some() {
            return None;
        }
        *place = Some(value.as_str());
        rest = later;
    }
    if !rest.is_empty() {
        return None;
    }
    Some(Plan {
        listen: listen?,
        server: server?,
        mode: mode_of(mode)?,
    })
}

// The mode of nine bits that the octal digits are.
fn mode_of(digits: Option<&str>) -> Option<u32> {
    let Some(digits) = digits else {
        return Some(MODE);
    };
    match u32::from_str_radix(digits, 8) {
        Ok(mode) if mode <= 0o777 => Some(mode),
        _ => None,
    }
}
