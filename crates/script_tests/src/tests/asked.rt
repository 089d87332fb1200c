//! What words of the command line ask for.

use command_line::{Asked, CallTask, ServeTask, Task, WordsFault, read_words};
use rs_wire::Blob;
use std::alloc::Global;
use std::process::Abort;

/// These bytes.
pub fn blob<R: Abort>(rt: &R, alloc: Global, bytes: &[u8]) -> Blob {
    Blob::from_slice(alloc, bytes).expect(rt, "there is memory")
}

// What the words ask for, or why nothing.
fn answer<R: Abort>(rt: &R, alloc: Global, words: &[&[u8]]) -> Result<Asked, WordsFault> {
    let mut blobs = Vec::new(alloc);
    for word in words {
        blobs
            .push(blob(rt, alloc, word))
            .expect(rt, "there is memory");
    }
    let read = read_words(alloc, &blobs);
    drop(blobs);
    read
}

fn is_task(answer: &Result<Asked, WordsFault>, wanted: Task) -> bool {
    match answer {
        Ok(Asked::Task(task)) => *task == wanted,
        _ => false,
    }
}

fn is_call(answer: &Result<Asked, WordsFault>, wanted: &CallTask) -> bool {
    match answer {
        Ok(Asked::Call(task)) => task == wanted,
        _ => false,
    }
}

fn is_load(answer: &Result<Asked, WordsFault>, wanted: u32) -> bool {
    match answer {
        Ok(Asked::Load { seed }) => *seed == wanted,
        _ => false,
    }
}

fn is_server(answer: &Result<Asked, WordsFault>, wanted: &ServeTask) -> bool {
    match answer {
        Ok(Asked::Serve(task)) => task == wanted,
        _ => false,
    }
}

fn is_usage(answer: &Result<Asked, WordsFault>) -> bool {
    matches!(answer, Err(WordsFault::Usage))
}

/// Whether the words ask for this task.
pub fn asks_task<R: Abort>(rt: &R, alloc: Global, words: &[&[u8]], task: Task) -> bool {
    let answer = answer(rt, alloc, words);
    let is_task = is_task(&answer, task);
    drop(answer);
    is_task
}

/// Whether the words ask for nothing.
pub fn asks_nothing<R: Abort>(rt: &R, alloc: Global, words: &[&[u8]]) -> bool {
    let answer = answer(rt, alloc, words);
    let is_usage = is_usage(&answer);
    drop(answer);
    is_usage
}

/// Whether these words ask for that call.
pub fn asks_call<R: Abort>(rt: &R, alloc: Global, words: &[&[u8]], task: &CallTask) -> bool {
    let answer = answer(rt, alloc, words);
    let is_call = is_call(&answer, task);
    drop(answer);
    is_call
}

/// Whether the words ask for a load of this seed.
pub fn asks_load<R: Abort>(rt: &R, alloc: Global, words: &[&[u8]], seed: u32) -> bool {
    let answer = answer(rt, alloc, words);
    let is_load = is_load(&answer, seed);
    drop(answer);
    is_load
}

/// Whether these words ask for that server.
pub fn asks_server<R: Abort>(rt: &R, alloc: Global, words: &[&[u8]], task: &ServeTask) -> bool {
    let answer = answer(rt, alloc, words);
    let is_server = is_server(&answer, task);
    drop(answer);
    is_server
}
