// What a door's own data say, and an option as a door keeps it. Total for every number and every option.
#![tactic(auto)]

ghost use Rattle.std.specs.Prelude.{◌≡◌, ◌≤◌, min};
ghost use Rattle.door.specs.Door.{phase_of};
ghost use Rattle.door.specs.Offer.{is_idle};
ghost use Rattle.door.specs.Answers.{phase_as};
ghost use Rattle.door_data.specs.Kept.{kept_option};

use door::Phase;

// The phase that a number stands for.
#[tactic(auto, using(crate::proofs::Phases::phase_idle), unfolding(door::specs::Door::phase_of))]
pub fn phase_of(n: u8) -> Phase
    ensures { phase_as result ≡ phase_of n }
{
    match n {
        1 => Phase::Offered,
        2 => Phase::Crossed,
        3 => Phase::Answered,
        4 => Phase::Open,
        5 => Phase::Plain,
        _ => Phase::Idle,
    }
}

#[tactic(auto, using(crate::proofs::Phases::idle_zero, crate::proofs::Phases::idle_other))]
pub fn is_idle(phase: u8) -> bool
    ensures { result ≡ is_idle (phase_of phase) }
{
    phase == 0 || 5 < phase
}

// How many bytes of a stored option count.
pub fn kept_length(stored: u8) -> usize
    ensures { (result ≡ min stored 40) × (result ≤ 40) }
{
    usize::from(stored).min(40)
}

// The bytes of an option as a door keeps them; zeros where there are more than 40.
pub fn kept_option(o: &[u8]) -> [u8; 40]
    ensures { result ≡ kept_option o.now }
{
    let mut bytes = [0; 40];
    wire::copy(&mut bytes, 0, o);
    bytes
}
