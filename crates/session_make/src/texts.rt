//! What stands before and behind the directives of a generated session.

/// The model of a spacecraft in orbit, and the plan up to its directives.
pub(crate) const HEAD: &str = "model orbiter {
  enum Mode { SAFE, NOMINAL }
  register mode: Mode = Mode.NOMINAL;
  register pointing: int = 0;
  counter images = 0;
  counter heaters = 0;
  counter passes = 0;
  accumulator storage = 0 rate 0;
  accumulator energy = 20000000000000 rate -20;
  counter alarms = 0;
  counter power = 20;
  discrete mode = mode;
  discrete pointing = pointing;
  discrete torn = pointing.conflicted;
  discrete images = images;
  discrete heaters = heaters;
  discrete power = power;
  linear storage = storage.volume;
  linear energy = energy.volume;
  activity Slew(target: int = 0) { power += 30; delay 2min; pointing := target; power += -30; }
  activity Image(size: int = 5) { power += 15; storage.rate += size; delay 1min; storage.rate += -size; power += -15; images += 1; }
  activity ImageSet(shots: int = 3) { let k = 0; while k < shots { call Image(); k = k + 1; } }
  activity HeaterOn() { heaters += 1; power += 10; }
  activity HeaterOff() { if heaters > 0 { heaters += -1; power += -10; } }
  activity Downlink() { storage.rate += -10; delay 1min; storage.rate += 10; passes += 1; }
  activity Charge() { energy.rate += 50; delay 10min; energy.rate += -50; }
  activity Calibrate() -> int { delay 30s; return pointing; }
  activity SafeCheck() { let p = call Calibrate(); if p < 0 { mode := Mode.SAFE; alarms += 1; } }
  activity Track(level: int = 0) { wait until images >= level; passes += 1; }
  activity Burst() { spawn Image(size = 1); spawn Image(size = 2); delay 1s; }
  activity Mark() { }
}
plan main {
  start \"2030-01-01T00:00:00Z\";
  duration 7d;
";

/// The end of the plan, its constraints and goals, and three clients.
pub(crate) const TAIL: &str = "}
constraints {
  energy_ok: energy >= 0;
  storage_ok: storage >= 0;
  power_ok: power <= 100;
  apart: forbid Slew, Image;
  calm: for a in Downlink: not during(a) or heaters <= 1;
  steady: not torn;
}
goals {
  marks: cardinality Mark() count 10 in [0us, 7d);
  checks: coexistence Calibrate() for end of Charge from 0us to 2h keeping power_ok;
  beacon: recurrence Mark() every 6h in [0us, 7d) rollback;
}
client a { simulate main; schedule main; simulate main; }
client b { fork b1 from main; move b1 1 to 1s; simulate b1; }
client c { fork c1 from main; add c1 at 1h Mark(); simulate c1; simulate c1; }
";
