//! Widths and hashes of known texts.

use crate::{PerPoint, Table, WidthRule, fnv1a, text_width};

// A letter, an ideograph, a combining mark and a control.
fn widths<R: WidthRule>() -> [usize; 4] {
    [
        R::width('a'),
        R::width('\u{754C}'),
        R::width('\u{301}'),
        R::width('\n'),
    ]
}

#[test]
fn known_widths(rt: HostRuntime) {
    assert!(rt; widths::<Table>() == [1, 2, 0, 0]);
    assert!(rt; widths::<PerPoint>() == [1, 1, 1, 0]);
}

#[test]
fn known_text(rt: HostRuntime) {
    assert_eq!(rt; text_width::<Table>("a\u{754C}e\u{301}\n"), 4);
}

#[test]
fn published_hashes(rt: HostRuntime) {
    let hashes = [fnv1a(b""), fnv1a(b"a"), fnv1a(b"foobar")];
    assert!(rt; hashes == [0xcbf29ce484222325, 0xaf63dc4c8601ec8c, 0x85944171f73967e8]);
}
