ghost use Rattle.std.specs.Prelude.{◌≡◌, ◌≤◌, ◌<◌, ◌++◌, [], length, min, take, drop};

/// Copies the front of the bytes into the front of the room: at most `most`, and as many as both have. Answers how many.
#[tactic(auto, using(crate::proofs::Fronts::front_consumed, std::proofs::lemmas::Grind::common_steps))]
pub(crate) fn copy_front(bytes: &[u8], most: usize, room: &mut [u8]) -> usize
    ensures count { result ≡ min most (min (length room.old) (length bytes.now)) }
    ensures copied { room.new ≡ take result bytes.now ++ drop result room.old }
    ensures consumed { bytes.now ≡ take result room.new ++ drop result bytes.now }
    ensures end { 1 ≤ most → result ≡ 0 → 0 < length room.new → bytes.now ≡ [] }
{
    let count = most.min(room.len().min(bytes.len()));
    room[..count].copy_from_slice(&bytes[..count]);
    count
}
