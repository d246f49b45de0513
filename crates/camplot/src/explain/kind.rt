//! Files of other kinds, by what they begin with.

/// What a file is that is neither a script nor a Gerber or drill file, and what to do, behind `the file`.
pub fn kind_of(bytes: &[u8]) -> Option<&'static str> {
    if bytes.starts_with(b"PK\x03\x04") {
        return Some("is a ZIP archive: unpack it, and name a file of it");
    }
    if bytes.starts_with(b"\x1f\x8b") {
        return Some("is packed by gzip: unpack it");
    }
    if bytes.starts_with(b"%PDF") {
        return Some("is a PDF document: export the layer as Gerber, or the holes as a drill file");
    }
    let first = &bytes[..bytes.len().min(4)];
    if first.starts_with(b"\xff\xfe") || first.starts_with(b"\xfe\xff") || first.contains(&0) {
        return Some("is in UTF-16: save it as UTF-8");
    }
    let text = bytes.trim_ascii();
    if text.starts_with(b"<!") || text.starts_with(b"<html") || text.starts_with(b"<HTML") {
        return Some("is a web page: fetch the file itself");
    }
    None
}
