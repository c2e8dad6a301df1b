//! A line is made of keys or of its numbers, and guesses the places of keys.
use line_window::{Line, is_rising};

#[test]
fn a_line_is_made_again_from_its_numbers(rt: HostRuntime) {
    let keys: [u64; 4] = [0, 1, 2, 100];
    let mut reader = keys.as_slice();
    assert!(rt; is_rising(reader));
    let line = Line::of(&mut reader);
    assert_eq!(rt; line, Line::from_parts(4, 0, 100, 2));
    for (key, guess, window) in [
        (0, 0, (0, 3)),
        (33, 0, (0, 3)),
        (34, 1, (0, 4)),
        (99, 2, (0, 4)),
        (100, 3, (1, 4)),
        (u64::MAX, 3, (1, 4)),
    ] {
        assert_eq!(rt; line.guess(key), guess, "{key}");
        assert_eq!(rt; line.window(key), window, "{key}");
    }
}
