//! Datagrams of session 7, byte by byte.

/// Data, or a repair: the fourth byte of its datagram.
#[derive(Clone, Copy)]
pub enum Kind {
    Data = 1,
    Repair = 3,
}

/// A drawop on a page of member 0, as far as its body of so many bytes.
pub fn up_to_body(
    kind: Kind,
    sender: u8,
    source: u8,
    page: u16,
    number: u32,
    stamp: u8,
    length: u8,
) -> [u8; 27] {
    let [p, q] = page.to_be_bytes();
    let [a, b, c, d] = number.to_be_bytes();
    [
        0x53, 0x52, 1, kind as u8, 0, 0, 0, 7, sender, // head
        source, 0, p, q, a, b, c, d, // name
        0, 0, 0, 0, 0, 0, 0, stamp, 0, length, // stamp, and the length of its body
    ]
}

/// Data of a source, or a repair by another, with the body `hi`, stamped 0.
pub fn word(kind: Kind, sender: u8, source: u8, page: u16, number: u32) -> [u8; 29] {
    let mut bytes = [b'h'; 29];
    bytes[..27].copy_from_slice(&up_to_body(kind, sender, source, page, number, 0, 2));
    bytes[28] = b'i';
    bytes
}

/// A request for a drawop on a page of member 0.
pub fn request(sender: u8, source: u8, page: u8, number: u32) -> [u8; 17] {
    let [a, b, c, d] = number.to_be_bytes();
    [
        0x53, 0x52, 1, 2, 0, 0, 0, 7, sender, // head
        source, 0, 0, page, a, b, c, d, // name
    ]
}

/// A request for a drawop on the first page, and for those behind it that the mask names.
pub fn requests(sender: u8, source: u8, number: u32, mask: u32) -> [u8; 21] {
    let [a, b, c, d] = number.to_be_bytes();
    let [e, f, g, h] = mask.to_be_bytes();
    [
        0x53, 0x52, 2, 2, 0, 0, 0, 7, sender, // head
        source, 0, 0, 0, a, b, c, d, // name
        e, f, g, h, // mask
    ]
}
