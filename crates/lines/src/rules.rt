// The rules of a list of station lines.
ghost use Rattle.std.specs.Prelude.{◌≡◌, Bool};
ghost use Rattle.std.specs.List.{list_all};
ghost use Rattle.lines.specs.Rules as rules;
ghost use Rattle.station.specs.declared.StationLine.{StationLine};

use station::StationLine as Line;

// Whether every address is a station's.
pub(crate) fn are_stations(lines: &[Line]) -> bool
    ensures { result ≡ list_all rules.is_station lines.now }
{
    lines.iter().all(|line| line.address.is_station())
}

// Whether every window is of at most 4,096 bytes, inside the memory, and no shorter than what it protects.
pub(crate) fn have_good_windows(lines: &[Line], memory: usize) -> bool
    ensures { result ≡ list_all (rules.good_window memory) lines.now }
{
    lines.iter().all(|line| {
        let end = line.first as usize + line.size as usize;
        line.size <= 4096 && end <= memory && line.protected <= line.size
    })
}

// Whether every two lines pass a test, the earlier before the later.
fn every_two<F: Fn(&Line, &Line) -> bool>(lines: &[Line], test: F) -> bool
    requires { F.IsAlwaysCallable test }
    ensures { (asks : StationLine → StationLine → Bool) → ((a b : _) (r : Bool) → F.post test a b r → r ≡ asks a.now b.now) → result ≡ rules.every_two asks lines.now }
{
    let mut rest = lines;
    while let Some((line, later)) = rest.split_first() {
        if !later.iter().all(|other| test(line, other)) {
            return false;
        }
        rest = later;
    }
    true
}

// Whether no two lines have one address.
pub(crate) fn all_differ(lines: &[Line]) -> bool
    ensures { result ≡ rules.every_two rules.differ lines.now }
{
    every_two(lines, |one, other| one.address != other.address)
}

// Whether no two windows share a byte.
pub(crate) fn are_apart(lines: &[Line]) -> bool
    ensures { result ≡ rules.every_two rules.apart lines.now }
{
    every_two(lines, |one, other| {
        let own_end = one.first as usize + one.size as usize;
        let other_end = other.first as usize + other.size as usize;
        own_end.min(other_end) <= (one.first as usize).max(other.first as usize)
    })
}
