//! What a worker did.

use tape::Answer;

/// What [`serve_job`](crate::serve_job) did.
#[derive(Debug, Drop, PartialEq, Eq)]
pub enum Worked {
    /// The last reply of a job was accepted, or the job has no reply, as a fire-and-forget and
    /// pushed metadata.
    Served {
        /// The stream, 0 for pushed metadata.
        stream: u32,
        /// How many items the replies of the job had.
        items: u64,
    },
    /// The job of this stream found no credit or no room in the queue, or the next item of its channel
    /// has not come. It stays in the work.
    Waiting(u32),
    /// A reply, or the taking of a channel's next item, was answered so, by another refusal or
    /// `TapeFull`. The job is dropped.
    Stopped(Answer),
    /// No job could be taken, and this was the answer: a refusal, or `TapeFull`.
    NoMore(Answer),
    /// No job waits, and none in the work could go on.
    Idle,
    /// There was not enough memory. What was got stays in the work.
    OutOfMemory,
}

/// What [`serve_some`](crate::serve_some) did.
#[derive(Debug, Drop, PartialEq, Eq)]
pub enum Progress {
    /// The replies of the job of this stream have as many bytes as were allowed. It stays in the
    /// work.
    More(u32),
    /// The same as [`serve_job`](crate::serve_job).
    Worked(Worked),
}
