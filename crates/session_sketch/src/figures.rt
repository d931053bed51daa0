//! The numbers of a text that is meant as an instant.

/// A number of a text, and how many digits it has.
#[derive(Clone, Copy)]
pub struct Figure {
    pub value: u64,
    pub digits: usize,
}

/// No number.
const NO_FIGURE: Figure = Figure {
    value: 0,
    digits: 0,
};

/// The first numbers of a text.
#[derive(Clone, Copy)]
pub struct StartFields {
    pub year: Figure,
    pub month: Figure,
    pub day: Figure,
    pub hour: Figure,
    pub minute: Figure,
    pub second: Figure,
}

/// The value of a digit, also of one of full width, at an offset.
fn digit_at(bytes: &[u8], at: usize) -> Option<u64> {
    let byte = bytes.get(at).copied().unwrap_or(0);
    if byte.is_ascii_digit() {
        return Some(u64::from(byte.saturating_sub(b'0')));
    }
    let front = bytes.get(at.saturating_sub(1)).copied().unwrap_or(0);
    if front == 188 && (144..154).contains(&byte) {
        return Some(u64::from(byte.saturating_sub(144)));
    }
    None
}

/// A number with a digit more.
fn with_digit(figure: Figure, digit: u64) -> Figure {
    Figure {
        value: figure.value.saturating_mul(10).saturating_add(digit),
        digits: figure.digits.saturating_add(1),
    }
}

/// The number of this place among those of a text, from 0.
fn figure_at(bytes: &[u8], which: usize) -> Figure {
    let mut found = NO_FIGURE;
    let mut count = 0usize;
    let mut is_inside = false;
    for at in 0..bytes.len() {
        let is_wide = 128 <= bytes[at] && digit_at(bytes, at).is_none();
        match digit_at(bytes, at) {
            Some(digit) => {
                is_inside = true;
                if count == which {
                    found = with_digit(found, digit);
                }
            }
            None => {
                if is_inside && !is_wide {
                    is_inside = false;
                    count = count.saturating_add(1);
                }
            }
        }
    }
    found
}

/// The numbers of a text.
pub fn start_fields_of(bytes: &[u8]) -> StartFields {
    StartFields {
        year: figure_at(bytes, 0),
        month: figure_at(bytes, 1),
        day: figure_at(bytes, 2),
        hour: figure_at(bytes, 3),
        minute: figure_at(bytes, 4),
        second: figure_at(bytes, 5),
    }
}
