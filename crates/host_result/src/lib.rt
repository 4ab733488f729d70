// What a call returns to a C host: answer and lengths in one number.
#![tactic(auto)]

ghost use Rattle.std.specs.Prelude.{◌≡◌};
ghost use Rattle.checks.specs.Refusals.{answer_of};
ghost use Rattle.host_result.specs.Packed.{packed, bare};

use checks::Refusal;

pub fn pack(answer: u8, first: u16, second: u16) -> u64
    ensures { result ≡ packed answer first second }
{
    (second as u64 * 65536 + first as u64) * 65536 + answer as u64
}

// A refusal, or a call that is carried out, without a reply.
pub fn alone(answer: u8) -> u64
    ensures { result ≡ bare answer }
{
    pack(answer, 0, 0)
}

// A call that never replies: carried out, or why it is refused.
pub fn answered(made: Result<(), Refusal>) -> u64
    ensures { result ≡ bare (answer_of made) }
{
    match made {
        Ok(()) => alone(0),
        Err(refusal) => alone(u8::from(refusal)),
    }
}
