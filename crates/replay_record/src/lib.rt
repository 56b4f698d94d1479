// One record of a sync log: what it does to a note, or that the records end before it, or that it breaks a rule.
#![tactic(auto)]

ghost use Rattle.std.specs.Prelude.{◌≡◌, length};
ghost use Rattle.replay_record.specs.Record.{is_plain, end_of, stage_of, swap_of, act_of, record_of};

pub const SIZE: usize = 16;

// What is done to which note; a stage and a show carry an edition.
#[derive(Clone, Copy)]
pub enum Action {
    Stage(u8, u32),
    Swap(u8),
    Show(u8, u32),
}

// Stays our own enum: it has three answers.
#[derive(Clone, Copy)]
pub enum Record {
    Does(Action),
    End,
    Faulty,
}

// The 16 bytes of a record.
pub fn read(bytes: &[u8]) -> Record
    requires { length bytes.now ≡ 16 }
    ensures { result ≡ record_of bytes.now }
{
    let edition = little::u32_at(bytes, 4);
    if is_plain(bytes) {
        return act(bytes[0], bytes[2], edition);
    }
    Record::Faulty
}

// Whatever the action: the zero byte, a note whose upper byte is zero, and eight zeros.
fn is_plain(bytes: &[u8]) -> bool
    requires { length bytes.now ≡ 16 }
    ensures { result ≡ is_plain bytes.now }
{
    let third = little::u32_at(bytes, 8);
    let fourth = little::u32_at(bytes, 12);
    (bytes[1] == 0) & (bytes[3] == 0) & (third == 0) & (fourth == 0)
}

fn act(action: u8, note: u8, edition: u32) -> Record
    ensures { result ≡ act_of action note edition }
{
    match action {
        0 => end(note, edition),
        1 => stage(note, edition),
        2 => swap(note, edition),
        3 => Record::Does(Action::Show(note, edition)),
        _ => Record::Faulty,
    }
}

fn end(note: u8, edition: u32) -> Record
    ensures { result ≡ end_of note edition }
{
    if (note == 0) & (edition == 0) {
        return Record::End;
    }
    Record::Faulty
}

fn stage(note: u8, edition: u32) -> Record
    ensures { result ≡ stage_of note edition }
{
    match edition {
        0 => Record::Faulty,
        _ => Record::Does(Action::Stage(note, edition)),
    }
}

fn swap(note: u8, edition: u32) -> Record
    ensures { result ≡ swap_of note edition }
{
    match edition {
        0 => Record::Does(Action::Swap(note)),
        _ => Record::Faulty,
    }
}
