//! Models as they are written, copied.

use aerie_text::tokens;
use model_reader::read_model;
use std::alloc::Global;

/// A model with each kind of item, as the language's guide shows it.
const LANDER: &str = "\
model lander {
  enum Mode { SAFE, SCIENCE }                     // an enumeration and its variants
  counter images = 0;                             // a cell that is added to
  register mode: Mode = Mode.SAFE;                // a cell that is set
  accumulator battery = 90000000 rate -5;         // a cell with a volume that its rate changes
  discrete mode = mode;                           // resources: what the profiles show
  discrete torn = mode.conflicted;
  linear charge = battery.volume + 1000 * images;
  activity Image(size: int = 5, wide: truth) -> int {
    require size > 0 && size <= 100;              // what the arguments of a directive have to meet
    battery.rate += -size;
    delay 1min;
    battery.rate += size;
    images += 1;
    return images;
  }
  activity Survey(shots: int = 3) {
    let k = 0;
    while k < shots {
      let number = call Image(wide = k == 0);
      if number >= 10 { mode := Mode.SAFE; return; } else { k = k + 1; }
    }
  }
  daemon {                                        // runs from the plan's start
    wait until battery.volume <= 1000000 || mode == Mode.SAFE;
    spawn Survey(shots = 1);
  }
}
";

/// How many items a copy has of the model that is read in a text.
fn copied_items(alloc: Global, text: &str) -> Option<usize> {
    if text.len() >= 4_294_967_295 {
        return None;
    }
    let tokens = tokens(alloc, text).ok()?;
    let (model, _) = read_model(alloc, text, tokens.as_slice(), 0).ok()?;
    let copy = model.copy(alloc).ok()?;
    Some(copy.items.len())
}

/// Memory suffices for a copy; that it is equal its clause says.
#[test]
fn copies_models(rt: HostRuntime) {
    assert_eq!(&rt; copied_items(rt.alloc(), LANDER), Some(10));
}
