// Member maps, as table files and logs have them: a bit for each member. A map may have other bytes after it.
#![tactic(auto)]

ghost use Rattle.std.specs.Prelude.{◌≡◌, ℕ, ◌<◌, MatchOption};
ghost use Rattle.member_map.specs.Maps.{map_length_lem, named, named_below, Stray};

use refusal::Member;

// How many bytes the map of `n` members has.
pub fn map_length(n: u8) -> usize
    ensures { result ≡ map_length_lem n }
{
    usize::from(n).div_ceil(8)
}

// Whether the map names a member. Bits past the bytes do not stand.
pub fn is_named(map: &[u8], m: Member) -> bool
    ensures { result ≡ named map.now m.0 }
{
    map.get(m.0 / 8)
        .is_some_and(|byte| (*byte >> (m.0 % 8)) % 2 == 1)
}

// How many of the first `n` members the map names.
pub fn named_count(map: &[u8], n: u8) -> usize
    ensures { result ≡ named_below map.now n }
{
    // The bits are added up: a test of each would be a jump that is guessed wrong.
    (0..usize::from(n))
        .map(|m| usize::from(is_named(map, Member(m))))
        .sum()
}

// The lowest bit that stands in the map of `n` members for no member.
pub fn stray_bit(map: &[u8], n: u8) -> Option<Member>
    ensures { MatchOption result ((m : ℕ) → Stray map.now n m → ⊥) (λ b. Stray map.now n b.0 × ((m : ℕ) → m < b.0 → Stray map.now n m → ⊥)) }
{
    (usize::from(n)..8 * map_length(n))
        .map(Member)
        .find(|m| is_named(map, *m))
}
