// The quick way to the judgement of two options: by their summaries, the TEP that is valid with the largest start, and the byte before that start.
#![tactic(auto)]

ghost use Rattle.std.specs.Prelude.{◌≡◌};
ghost use Rattle.judge_quick.specs.Quick.{byte_before};

// The byte before a place; 0 where there is none.
pub fn byte_before(s: &[u8], at: usize) -> u8
    ensures { result ≡ byte_before s.now at }
{
    if at == 0 {
        return 0;
    }
    if s.len() < at {
        return 0;
    }
    s[at - 1]
}
