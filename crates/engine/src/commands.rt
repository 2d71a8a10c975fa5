// The commands' codes and widths, their fields, and what refusals 4 to 7 say of them. A command is its own bytes, cut to its width.
ghost use Rattle.std.specs.Prelude.{◌≡◌, ◌<◌, IfOk, not, ◌&&◌, ◌||◌, ◌≤◌, eqb, ltb};
ghost use Rattle.hazards.specs.Fields.{field_at};
ghost use Rattle.engine.specs.Commands.{code_of, Decodes, Begins, width_of, entity_index_field, generation_field};
ghost use Rattle.engine.specs.Commands.{byte_at, floats_at, hazard_fields, setting_of};
ghost use Rattle.engine.specs.Commands.{censor_of, clock_faults, create_faults, cause_faults, set_faults, reschedule_faults};
ghost use Rattle.engine.specs.Commands.{pause_faults, front_refusal};
ghost use Rattle.engine.specs.Refusals.{refused_number};
ghost use Rattle.clocks.specs.RowsInternals.{censor_time};

use clocks::setting::CauseSetting;
use hazards::checks::HazardFields;
use hazards::fields::{f64_at, u32_at, u64_at};
use hazards::refusals::{Faults, Refusal};

// The commands, by their codes.
#[derive(Clone, Copy, Debug, PartialEq, Eq)]
pub enum Command {
    Create = 0x01,
    Set = 0x02,
    Remove = 0x03,
    Reschedule = 0x04,
    Pause = 0x05,
    Resume = 0x06,
    Deliver = 0x07,
    Undo = 0x08,
}

// Kept: the codes as bytes have names, as commands are laid out and told apart by bytes; u8::from(Command::Set) at each place is no plainer.
pub const CREATE: u8 = Command::Create as u8;

pub const SET: u8 = Command::Set as u8;

pub const REMOVE: u8 = Command::Remove as u8;

pub const RESCHEDULE: u8 = Command::Reschedule as u8;

pub const PAUSE: u8 = Command::Pause as u8;

pub const RESUME: u8 = Command::Resume as u8;

pub const DELIVER: u8 = Command::Deliver as u8;

pub const UNDO: u8 = Command::Undo as u8;

impl From<Command> for u8 {
    ghost from_gives = { λ command code. code ≡ code_of command };

    fn from(command: Command) -> u8 {
        command as u8
    }
}

impl TryFrom<u8> for Command {
    type Error = Refusal;

    ghost try_from_gives = { Decodes };

    fn try_from(code: u8) -> Result<Command, Refusal> {
        match code {
            CREATE => Ok(Command::Create),
            SET => Ok(Command::Set),
            REMOVE => Ok(Command::Remove),
            RESCHEDULE => Ok(Command::Reschedule),
            PAUSE => Ok(Command::Pause),
            RESUME => Ok(Command::Resume),
            DELIVER => Ok(Command::Deliver),
            UNDO => Ok(Command::Undo),
            _ => Err(Refusal::NoCommand),
        }
    }
}

impl Command {
    // How many bytes the command has, its code byte among them.
    pub fn width(self) -> usize
        ensures { (result ≡ width_of (code_of self)) × (0 < result) }
    {
        match self {
            Command::Create => 33,
            Command::Set => 156,
            Command::Remove => 6,
            Command::Reschedule | Command::Resume => 23,
            Command::Pause => 10,
            Command::Deliver | Command::Undo => 1,
        }
    }
}

// The places of the fields.
pub const CLOCK_FIELD: usize = 1;

// CREATE clock u8, process u64, policy, tie, scale f64, has-entity, entity index u64, generation u32
pub const PROCESS_FIELD: usize = 2;

pub const POLICY_FIELD: usize = 10;

pub const TIE_FIELD: usize = 11;

pub const SCALE_FIELD: usize = 12;

pub const HAS_ENTITY_FIELD: usize = 20;

pub const ENTITY_INDEX_FIELD: usize = 21;

pub const GENERATION_FIELD: usize = 29;

// SET clock u8, cause u32, priority u32, kind, first f64, now f64, count u8, 8 pairs (end f64, rate f64); REMOVE clock u8, cause u32
pub const CAUSE_FIELD: usize = 2;

pub const SET_PRIORITY_FIELD: usize = 6;

pub const KIND_FIELD: usize = 10;

pub const FIRST_FIELD: usize = 11;

pub const SET_NOW_FIELD: usize = 19;

pub const COUNT_FIELD: usize = 27;

pub const PAIRS_FIELD: usize = 28;

// The first pair's rate, after its end.
pub const RATES_FIELD: usize = PAIRS_FIELD + 8;

// RESCHEDULE and RESUME clock u8, now f64, has-censor, censor f64, priority i32; PAUSE clock u8, now f64
pub const NOW_FIELD: usize = 2;

pub const HAS_CENSOR_FIELD: usize = 10;

pub const CENSOR_FIELD: usize = 11;

pub const PRIORITY_FIELD: usize = 19;

// The bytes of a command by its code; 0 where it is no code.
pub fn width(code: u8) -> usize
    ensures { result ≡ width_of code }
{
    match Command::try_from(code) {
        Ok(command) => command.width(),
        Err(_) => 0,
    }
}

// The command that the bytes begin with: refused by 3 where there is no byte, by 2 where it is no command, by 3 where it is cut short.
pub fn front_command(input: &[u8]) -> Result<Command, Refusal>
    ensures { (refused_number result ≡ front_refusal input.now) × IfOk result (λ command. Begins input.now command) }
{
    let Some(code) = input.first() else {
        return Err(Refusal::CutShort);
    };
    let command = Command::try_from(*code)?;
    if input.len() < command.width() {
        return Err(Refusal::CutShort);
    }
    Ok(command)
}

// A byte past the end is 0.
pub fn byte_at(bytes: &[u8], at: usize) -> u8
    ensures { result ≡ byte_at bytes.now at }
{
    bytes.get(at).copied().unwrap_or(0)
}

// Kept: array::from_fn was tried; its contract did not give the eight elements, and the proof didn't close.
fn floats_at(command: &[u8], at: usize) -> [f64; 8]
    requires { at ≤ 1024 }
    ensures { result ≡ floats_at command.now at }
{
    [
        f64_at(command, at),
        f64_at(command, at + 16),
        f64_at(command, at + 32),
        f64_at(command, at + 48),
        f64_at(command, at + 64),
        f64_at(command, at + 80),
        f64_at(command, at + 96),
        f64_at(command, at + 112),
    ]
}

fn hazard_fields(command: &[u8]) -> HazardFields
    ensures { result ≡ hazard_fields command.now }
{
    let ends = floats_at(command, PAIRS_FIELD);
    let rates = floats_at(command, RATES_FIELD);
    HazardFields {
        kind: byte_at(command, KIND_FIELD),
        first: f64_at(command, FIRST_FIELD),
        count: byte_at(command, COUNT_FIELD),
        ends,
        rates,
    }
}

// The censor time of a RESCHEDULE or RESUME, where it has one.
pub fn censor_time(command: &[u8]) -> Option<f64>
    ensures { result ≡ censor_time (censor_of command.now) }
{
    (byte_at(command, HAS_CENSOR_FIELD) == 1).then_some(f64_at(command, CENSOR_FIELD))
}

fn clock_faults(command: &[u8]) -> Faults
    ensures { result ≡ clock_faults command.now }
{
    hazards::refusals::identifier_fault_if(byte_at(command, CLOCK_FIELD) > 15)
}

// An entity whose bits are all zero.
fn unused_entity(command: &[u8]) -> bool
    ensures { result
        ≡ (eqb (field_at 8 command.now entity_index_field) 0 && eqb (field_at 4 command.now generation_field) 0) }
{
    u64_at(command, ENTITY_INDEX_FIELD) == 0 && u32_at(command, GENERATION_FIELD) == 0
}

// A has-byte off its list, or one of 0 before a field whose bits are not all zero.
fn has_fault(has: u8, empty: bool) -> bool
    ensures { result ≡ (ltb 1 has || (eqb has 0 && not empty)) }
{
    has > 1 || (has == 0 && !empty)
}

// Of CREATE: policy, tie, entity and scale, and its clock.
pub fn create_faults(command: &[u8]) -> Faults
    ensures { result ≡ create_faults command.now }
{
    let policy = byte_at(command, POLICY_FIELD) > 1;
    let tie = byte_at(command, TIE_FIELD) > 2;
    let entity = has_fault(byte_at(command, HAS_ENTITY_FIELD), unused_entity(command));
    let scale = hazards::floats::in_range(f64_at(command, SCALE_FIELD));
    let own = Faults {
        choice: policy | (tie | entity),
        range: !scale,
        intervals: false,
        identifier: false,
    };
    own.joined(clock_faults(command))
}

// Of REMOVE: its cause and its clock.
pub fn cause_faults(command: &[u8]) -> Faults
    ensures { result ≡ cause_faults command.now }
{
    let reserved = hazards::refusals::is_reserved(u32_at(command, CAUSE_FIELD));
    hazards::refusals::identifier_fault_if(reserved).joined(clock_faults(command))
}

// What a SET says of its cause, and what refusals 4 to 7 say of it: of its hazard and now, and what REMOVE is tested for. The pairs are
// read once.
#[derive(Clone, Copy)]
pub struct SetCommand {
    pub faults: Faults,
    pub setting: CauseSetting,
}

pub fn set_command(command: &[u8]) -> SetCommand
    ensures { (result.faults ≡ set_faults command.now) × (result.setting ≡ setting_of command.now) }
{
    let fields = hazard_fields(command);
    let time = f64_at(command, SET_NOW_FIELD);
    let now = hazards::floats::is_time(time);
    let rest = hazards::refusals::range_fault_unless(now).joined(cause_faults(command));
    let faults = fields.faults().joined(rest);
    let hazard = fields.hazard();
    let intervals = fields.intervals();
    let setting = CauseSetting {
        cause_id: u32_at(command, CAUSE_FIELD),
        priority: u32_at(command, SET_PRIORITY_FIELD),
        hazard,
        intervals,
        now: time,
    };
    SetCommand { faults, setting }
}

// Of RESCHEDULE and RESUME: now and censor, and their clock.
pub fn reschedule_faults(command: &[u8]) -> Faults
    ensures { result ≡ reschedule_faults command.now }
{
    let now = hazards::floats::is_time(f64_at(command, NOW_FIELD));
    let censor = f64_at(command, CENSOR_FIELD);
    let time = hazards::floats::is_time(censor);
    let own = Faults {
        choice: has_fault(
            byte_at(command, HAS_CENSOR_FIELD),
            hazards::floats::zero_bits(censor),
        ),
        range: !(now & time),
        intervals: false,
        identifier: false,
    };
    own.joined(clock_faults(command))
}

// Of PAUSE: now, and its clock.
pub fn pause_faults(command: &[u8]) -> Faults
    ensures { result ≡ pause_faults command.now }
{
    let now = hazards::floats::is_time(f64_at(command, NOW_FIELD));
    hazards::refusals::range_fault_unless(now).joined(clock_faults(command))
}
