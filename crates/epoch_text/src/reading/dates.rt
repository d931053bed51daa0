//! The date of a start.

ghost use Rattle.std.specs.Prelude.{◌≡◌, ◌<◌, option_map, IfSome};
ghost use Rattle.jiff.specs.Words.{epoch_day};
ghost use Rattle.epoch_text.specs.Dates.{day_by_month, day_by_year_day, day_of};
ghost use Rattle.epoch_text.specs.Ranges.{IsStartDay};

use crate::forms::{has_form, number};
use jiff::civil::Date;

/// The first year of a start.
const FIRST_YEAR: u32 = 1900;

/// The last year of a start.
const LAST_YEAR: u32 = 9000;

/// The date that a text says, by month as `2028-12-31` or by its day of the year as `2028-366`.
pub(crate) fn date_of(text: &[u8]) -> Option<Date>
    ensures value { option_map epoch_day result ≡ day_of text.now }
    ensures range { IfSome result (λ date. IsStartDay (epoch_day date)) }
{
    if has_form(text, b"0000-00-00") {
        date_by_month(
            number(&text[..4]),
            number(&text[5..7]),
            number(&text[8..10]),
        )
    } else if has_form(text, b"0000-000") {
        date_by_year_day(number(&text[..4]), number(&text[5..8]))
    } else {
        None
    }
}

/// The date with this year, month and day.
fn date_by_month(year: u32, month: u32, day: u32) -> Option<Date>
    requires month { month < 100 }
    requires day { day < 100 }
    ensures { option_map epoch_day result ≡ day_by_month year month day }
{
    if year < FIRST_YEAR || LAST_YEAR < year {
        return None;
    }
    Date::new(year as i16, month as i8, day as i8).ok()
}

/// The date with this number in its year, where 1 January has number 1.
fn date_by_year_day(year: u32, year_day: u32) -> Option<Date>
    requires { year_day < 1_000 }
    ensures { option_map epoch_day result ≡ day_by_year_day year year_day }
{
    if year < FIRST_YEAR || LAST_YEAR < year {
        return None;
    }
    let first = Date::new(year as i16, 1, 1).ok()?;
    first.with().day_of_year(year_day as i16).build().ok()
}
