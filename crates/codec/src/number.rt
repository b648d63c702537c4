// Why a call refuses: the rows of the number table.
ghost use Rattle.std.specs.Prelude.{◌≡◌};
ghost use Rattle.codec.specs.Reason.{number_of};

#[derive(Clone, Copy, Debug, PartialEq, Eq)]
pub enum Reason {
    // T not 1 to 16.
    TaskRange = 1,
    // N not 1 to 256.
    ObjectRange = 2,
    // A list of owners not of N entries, or starts or a memory not of N times F.
    Entries = 3,
    // An owner not below T.
    OwnerRange = 4,
    // Task not below T.
    NoTask = 5,
    // Object not below N.
    NoObject = 6,
    // Access neither 0 (read) nor 1 (write).
    NoSort = 7,
    // The task has made 65,535 accesses.
    Full = 8,
    // Output too short.
    NoRoom = 9,
    // (a), (d): part of the record, or of a section's body, is missing.
    Short = 10,
    // (b), (c), (e): unknown kind or wrong length.
    Malformed = 11,
    // (f): this kind is not allowed here.
    Misplaced = 12,
    // (g): a number out of range.
    Range = 13,
    // (a), (d) against a body's end, and a wrong count of accesses.
    InBody = 14,
    // This task has no accesses left.
    Finished = 15,
    // The task is held up by an ordering.
    Held = 16,
    // Unsound state or run.
    Unsound = 17,
    // No order of all accesses keeps each task's own order and every ordering.
    NoOrder = 18,
    // The memory differs from the value in the read's record.
    Differs = 19,
    // F not 1 to 8, or a field not below F.
    NoField = 20,
    // The ends of the logs decrease, go past the logs, or are not T in number.
    Ends = 21,
}

impl Reason {
    // Its number in the table.
    pub fn number(self) -> u32
        ensures { result ≡ number_of self }
    {
        self as u32
    }
}

// The same numbers, for the calls that answer them.
// 1: T not 1 to 16.
pub const TASK_RANGE: u32 = 1;
// 2: N not 1 to 256.
pub const OBJECT_RANGE: u32 = 2;
// 3: a list of owners not of N entries, or starts or a memory not of N times F.
pub const ENTRIES: u32 = 3;
// 4: an owner not below T.
pub const OWNER_RANGE: u32 = 4;
// 5: task not below T.
pub const NO_TASK: u32 = 5;
// 6: object not below N.
pub const NO_OBJECT: u32 = 6;
// 7: access neither 0 (read) nor 1 (write).
pub const NO_SORT: u32 = 7;
// 8: the task has made 65,535 accesses.
pub const FULL: u32 = 8;
// 9: output too short.
pub const NO_ROOM: u32 = 9;
// 10: (a), (d): part of the record, or of a section's body, is missing.
pub const SHORT: u32 = 10;
// 11: (b), (c), (e): unknown kind or wrong length.
pub const MALFORMED: u32 = 11;
// 12: (f): this kind is not allowed here.
pub const MISPLACED: u32 = 12;
// 13: (g): a number out of range.
pub const RANGE: u32 = 13;
// 14: (a), (d) against a body's end, and a wrong count of accesses.
pub const IN_BODY: u32 = 14;
// 15: this task has no accesses left.
pub const FINISHED: u32 = 15;
// 16: the task is held up by an ordering.
pub const HELD: u32 = 16;
// 17: unsound state or run.
pub const UNSOUND: u32 = 17;
// 18: no order of all accesses keeps each task's own order and every ordering (document 02, F-2).
pub const NO_ORDER: u32 = 18;
// 19: the memory differs from the value in the read's record (document 02, F-3).
pub const DIFFERS: u32 = 19;
// 20: F not 1 to 8, or a field not below F (document 02, F-6).
pub const NO_FIELD: u32 = 20;
// 21: the ends of the logs decrease, go past the logs, or are not T in number (document 02, F-8).
pub const ENDS: u32 = 21;

// Each of them is its row's.
const _: () = prove!(
    TASK_RANGE == Reason::TaskRange as u32
        && OBJECT_RANGE == Reason::ObjectRange as u32
        && ENTRIES == Reason::Entries as u32
        && OWNER_RANGE == Reason::OwnerRange as u32
        && NO_TASK == Reason::NoTask as u32
        && NO_OBJECT == Reason::NoObject as u32
        && NO_SORT == Reason::NoSort as u32
        && FULL == Reason::Full as u32
        && NO_ROOM == Reason::NoRoom as u32
        && SHORT == Reason::Short as u32
        && MALFORMED == Reason::Malformed as u32
        && MISPLACED == Reason::Misplaced as u32
        && RANGE == Reason::Range as u32
        && IN_BODY == Reason::InBody as u32
        && FINISHED == Reason::Finished as u32
        && HELD == Reason::Held as u32
        && UNSOUND == Reason::Unsound as u32
        && NO_ORDER == Reason::NoOrder as u32
        && DIFFERS == Reason::Differs as u32
        && NO_FIELD == Reason::NoField as u32
        && ENDS == Reason::Ends as u32
);
