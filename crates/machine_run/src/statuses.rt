// What a run's status is outside.
ghost use Rattle.std.specs.Prelude.{◌≡◌, option_map};
ghost use Rattle.machine_run.specs.Statuses.{complaint_of, status_number};

use engine::Status;

/// The number that the process ends with.
pub fn number(status: Status) -> u8
    ensures { result ≡ status_number status }
{
    match status {
        Status::Done => 0,
        Status::Usage => 1,
        Status::ReadFault => 2,
        Status::WriteFault => 3,
        Status::Memory => 4,
        Status::TooMuch => 5,
    }
}

/// The line that standard error gets, without its end.
pub fn complaint(status: Status) -> Option<&'static str>
    ensures { option_map (λ t. t.now) result ≡ complaint_of status }
{
    match status {
        Status::Done => None,
        Status::Usage => Some("usage: beam_heap [--arena N] [--space one|own] [--gen N]"),
        Status::ReadFault => Some("beam_heap: read fault"),
        Status::WriteFault => Some("beam_heap: write fault"),
        Status::Memory => Some("beam_heap: no memory"),
        Status::TooMuch => Some("beam_heap: script too long"),
    }
}
