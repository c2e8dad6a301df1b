//! A share of steps is the same by a product and by a long division.
use line_window::{scaled, scaled_by_long_division};

// From so many steps on, the division is a long one.
const FEW_STEPS: u64 = 1 << 20;

#[test]
fn both_forms_agree_up_to_the_edges(rt: HostRuntime) {
    let top = u64::MAX;
    let half = 1 << 63;
    // In the two cases with long numbers the estimate is one too low and one too high.
    let cases = [
        (0, 1, top, 0),
        (0, top, 1023, 0),
        (1, 2, top, half - 1),
        (1, 3, 4, 1),
        (99994207416294262, 375617775649230945, 12922, 3440),
        (10788707392120302, 13387340566406384, 3668, 2955),
        (top - 1, top, 1, 0),
        (top - 1, top, 1023, 1022),
        (half, top, 2, 1),
        (half - 1, half, 1023, 1022),
        (half - 1, top, 1022, 510),
        (half, top, FEW_STEPS - 1, FEW_STEPS / 2 - 1),
        (half, top, FEW_STEPS, FEW_STEPS / 2),
        (half, top, top, half),
    ];
    for (distance, span, steps, want) in cases {
        assert!(rt; distance < span);
        assert_eq!(rt; scaled(distance, span, steps), want, "{distance} of {span}");
        assert_eq!(rt; scaled_by_long_division(distance, span, steps), want);
    }
}
