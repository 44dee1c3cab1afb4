// The phases of an operation, and their numbers in a task's record.
ghost use Rattle.std.specs.Prelude.{◌≡◌};
ghost use Rattle.records.specs.Phase.{phase_of, phase_number};

use refusal::Refusal;

// What the next step of a task does. The phases that work for another task name it.
#[derive(Clone, Copy)]
pub enum Phase {
    Idle,
    ReadOnly,
    Announce,
    Poll,
    LoadHead,
    LinkHead,
    LoadPriority,
    LoadOwn,
    LoadExit,
    LinkExit,
    ClearExit,
    ReleaseExit,
    Retract,
    ClearHead,
    ReloadClear,
    Apply(u8),
    ReloadApply(u8),
    LoadHelped(u8),
    LinkHelped(u8),
    Validate(u8),
    HandOver(u8),
    ReloadHandOver(u8),
    Release(u8),
    ReloadRelease(u8),
}

// The phase of a number. The retry phases are ranges of eight, a number for each task; another number is refused with 11.
impl TryFrom<u32> for Phase {
    type Error = Refusal;

    ghost try_from_gives = { λ number read. read ≡ phase_of number };

    #[tactic(auto, unfolding(crate::specs::Phase::phase_of))]
    fn try_from(number: u32) -> Result<Phase, Refusal> {
        match number {
            0 => Ok(Phase::Idle),
            1 => Ok(Phase::ReadOnly),
            2 => Ok(Phase::Announce),
            3 => Ok(Phase::Poll),
            4 => Ok(Phase::LoadHead),
            5 => Ok(Phase::LinkHead),
            6 => Ok(Phase::LoadPriority),
            7 => Ok(Phase::LoadOwn),
            8 => Ok(Phase::LoadExit),
            9 => Ok(Phase::LinkExit),
            10 => Ok(Phase::ClearExit),
            11 => Ok(Phase::ReleaseExit),
            12 => Ok(Phase::Retract),
            13 => Ok(Phase::ClearHead),
            14 => Ok(Phase::ReloadClear),
            16..=23 => Ok(Phase::Apply((number - 16) as u8)),
            24..=31 => Ok(Phase::ReloadApply((number - 24) as u8)),
            32..=39 => Ok(Phase::LoadHelped((number - 32) as u8)),
            40..=47 => Ok(Phase::LinkHelped((number - 40) as u8)),
            48..=55 => Ok(Phase::Validate((number - 48) as u8)),
            56..=63 => Ok(Phase::HandOver((number - 56) as u8)),
            64..=71 => Ok(Phase::ReloadHandOver((number - 64) as u8)),
            72..=79 => Ok(Phase::Release((number - 72) as u8)),
            80..=87 => Ok(Phase::ReloadRelease((number - 80) as u8)),
            _ => Err(Refusal::Record),
        }
    }
}

// The number of a phase.
impl From<Phase> for u32 {
    ghost from_gives = { λ phase number. number ≡ phase_number phase };

    fn from(phase: Phase) -> u32 {
        match phase {
            Phase::Idle => 0,
            Phase::ReadOnly => 1,
            Phase::Announce => 2,
            Phase::Poll => 3,
            Phase::LoadHead => 4,
            Phase::LinkHead => 5,
            Phase::LoadPriority => 6,
            Phase::LoadOwn => 7,
            Phase::LoadExit => 8,
            Phase::LinkExit => 9,
            Phase::ClearExit => 10,
            Phase::ReleaseExit => 11,
            Phase::Retract => 12,
            Phase::ClearHead => 13,
            Phase::ReloadClear => 14,
            Phase::Apply(j) => 16 + u32::from(j),
            Phase::ReloadApply(j) => 24 + u32::from(j),
            Phase::LoadHelped(j) => 32 + u32::from(j),
            Phase::LinkHelped(j) => 40 + u32::from(j),
            Phase::Validate(j) => 48 + u32::from(j),
            Phase::HandOver(j) => 56 + u32::from(j),
            Phase::ReloadHandOver(j) => 64 + u32::from(j),
            Phase::Release(j) => 72 + u32::from(j),
            Phase::ReloadRelease(j) => 80 + u32::from(j),
        }
    }
}
