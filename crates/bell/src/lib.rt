//! A bell, for whoever waits until something happens: threads that are parked, and a link that
//! waits in its poll.
//!
//! A waiter looks at the bell first, then whether what it waits for is there, and sleeps only where
//! it is not and the bell has not rung meanwhile. Whoever makes it happen rings afterwards. So a
//! ring between the look and the sleep is heard. A ring for which nobody watches or listens reads two
//! words, writes none, and makes no call of the system.
//!
//! Nothing is promised of who wakes, and when: contracts do not see a bell. The system may refuse
//! to wake a link, so a link waits for a bounded time alone.
#![tactic(auto)]

use crossbeam_utils::CachePadded;
use crossbeam_utils::sync::{EventCount, Key};
use mio::{Registry, Token, Waker};
use std::io;
use std::sync::atomic::{AtomicBool, Ordering};
use std::sync::{RwLock, Wait};

/// A bell. Threads share it by reference.
///
/// ```text
///   a thread                            a link
///   --------                            ------
///   listener = bell.listen()            bell.watch()
///   is it there? if so, go on           is it there? if so, go on
///   listener.wait(rt)                   if bell.begin_sleep(): wait in the poll
///                                       bell.end_sleep()
/// ```
///
/// Any number of threads listen. One link hears the bell, the last one that asked for it.
#[derive(Drop)]
pub struct Bell {
    /// The threads that listen. This and the next are on cache lines of their own, since each ring
    /// reads both.
    listeners: CachePadded<EventCount>,
    /// Whether the link that hears it watches, and it has not rung since.
    watched: CachePadded<AtomicBool>,
    /// Whether that link sleeps, or is about to.
    asleep: AtomicBool,
    /// What ends a wait in the poll of that link.
    waker: RwLock<Option<Waker>>,
}

/// Someone who listens to a bell, to sleep until it rings, or to go away.
pub struct Listener<'a> {
    key: Key<'a>,
}

impl Bell {
    /// A bell that nobody listens to and no link hears.
    pub const fn new() -> Bell {
        Bell {
            listeners: CachePadded::new(EventCount::new()),
            watched: CachePadded::new(AtomicBool::new(false)),
            asleep: AtomicBool::new(false),
            waker: RwLock::new(None),
        }
    }

    // Wakes the link that hears the bell. Nobody's wake-up is lost where the waker can't be read:
    // threads that ring read it side by side, so there is a link just then that begins to hear the
    // bell (`heard_by`). That link is awake, and looks for what this ring is about after that; and
    // the link that heard the bell until then hears it no longer.
    fn wake_link(&self) {
        if let Some(waker) = self.waker.try_read()
            && let Some(waker) = &*waker
        {
            // Where the system refuses, the link sleeps for its bounded time.
            let _ = waker.wake();
        }
    }

    /// Wakes everyone who listens, and the link that hears the bell, if it sleeps. It waits for nobody.
    /// Call it after what they wait for has happened by a step on a word that is `SeqCst`, as giving
    /// back a turn of a lock is, since a ring that finds nobody is none itself.
    #[inline(always)]
    pub fn ring(&self) {
        self.listeners.notify_all();
        if self.watched.load(Ordering::SeqCst) {
            self.tell_link();
        }
    }

    // Tells the link that the bell rang since it watches. The link writes that it sleeps and then
    // reads this word, and a ring does it the other way round. So the link reads this ring, or this
    // ring reads that the link sleeps.
    #[cold]
    fn tell_link(&self) {
        if self.watched.swap(false, Ordering::SeqCst) && self.asleep.load(Ordering::SeqCst) {
            self.wake_link();
        }
    }

    /// Listens from now on. Call it before the look whether there is anything to wait for.
    pub fn listen(&self) -> Listener<'_> {
        Listener {
            key: self.listeners.prepare_wait(),
        }
    }

    /// From now on the link with this poll hears the bell, by events of this token, and no link
    /// that heard it before. The link [watches](Bell::watch) after this call and looks whether there is
    /// anything to wait for after that. An error leaves the bell as it was.
    ///
    /// A link that no longer hears the bell may call [`end_sleep`](Bell::end_sleep) when the other
    /// one sleeps, which then sleeps for its bounded time, once.
    pub fn heard_by<R: Wait>(&self, rt: &R, registry: &Registry, token: Token) -> io::Result<()> {
        let waker = Waker::new(registry, token)?;
        *self.waker.write(rt) = Some(waker);
        Ok(())
    }

    /// Watches from now on whether the bell rings. A link calls it before the look whether there is
    /// anything to wait for.
    pub fn watch(&self) {
        self.watched.store(true, Ordering::SeqCst);
    }

    /// Says that the link that hears the bell is about to wait in its poll, so that the next ring
    /// ends that wait. False where the bell has rung since the link watches; then it must not wait.
    pub fn begin_sleep(&self) -> bool {
        self.asleep.store(true, Ordering::SeqCst);
        let may_sleep = self.watched.load(Ordering::SeqCst);
        if !may_sleep {
            self.end_sleep();
        }
        may_sleep
    }

    /// Says that the link no longer waits, so that a ring makes no call of the system. The poll may
    /// still have an event of the bell.
    pub fn end_sleep(&self) {
        self.asleep.store(false, Ordering::SeqCst);
    }
}

impl Listener<'_> {
    /// Sleeps until the bell rings, or not at all where it has rung since this one listens.
    pub fn wait<R: Wait>(self, rt: &R) {
        let Listener { key } = self;
        key.wait(rt);
    }
}

impl Drop for Listener<'_> {
    fn drop(self) {
        let Listener { key: _ } = self;
    }
}

impl Default for Bell {
    fn default() -> Bell {
        Bell::new()
    }
}
