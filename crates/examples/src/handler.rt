//! A handler of a program's own: a struct that keeps a law, and counts how often it was asked.

ghost use Rattle.std.specs.Prelude.{◌≡◌};

use anyhow::{Context, Result};
use rustshuttle::{Blob, Handler, Kind, Law, Produced, Routes, Stored};
use std::alloc::Global;
use std::io::Print;
use std::sync::Arc;
use std::sync::atomic::{AtomicU64, Ordering};

/// Answers as `Law::Upper` does, and counts how often it was asked.
#[derive(Drop)]
struct Counted {
    asked: Arc<AtomicU64>,
}

impl Handler for Counted {
    ghost use Rattle.rustshuttle.specs.Law.TheVariants as law;
    ghost use Rattle.rustshuttle.specs.Values.{value};

    ghost gives = { λ _ content index. value law.Upper content index };

    fn call(&self, alloc: Global, content: &Blob, index: u64) -> Produced {
        self.asked.fetch_add(1, Ordering::SeqCst);
        Law::Upper.call(alloc, content, index)
    }
}

// A route to a handler that keeps the law `Upper`, which is proved here, where it is stored beside it.
fn routes(alloc: Global, name: &Blob, counted: Counted) -> Result<Routes<Counted>> {
    let mut routes = Routes::new(alloc);
    let stored = Stored::new(Law::Upper, counted);
    routes.add(name.copy(alloc)?, Kind::Response, stored)?;
    Ok(routes)
}

// Prints what a handler made of a word.
fn show(rt: &impl Print, word: &str, produced: Produced) -> Result<()> {
    match produced {
        Produced::Item(item) => {
            let answer = std::str::from_utf8(item.as_slice()).context("no text")?;
            println!(rt; "{word} {answer}")?;
        }
        Produced::Finish => println!(rt; "{word}: no item")?,
        Produced::OutOfMemory => println!(rt; "{word}: out of memory")?,
    }
    Ok(())
}

/// The whole example.
pub fn run(rt: &impl Print, alloc: Global) -> Result<()> {
    let asked = Arc::new(alloc, AtomicU64::new(0))?;
    let counted = Counted {
        asked: Arc::try_clone(&asked)?,
    };
    let name = Blob::from_slice(alloc, b"shout")?;
    let routes = routes(alloc, &name, counted)?;

    // A request names its route, and its content is what the handler is asked about.
    let route = routes.find(&name, Kind::Response).context("no route")?;
    for word in ["hello", "anyone there?"] {
        let content = Blob::from_slice(alloc, word.as_bytes())?;
        show(rt, word, routes.answer(alloc, route, &content, 0))?;
    }
    println!(rt; "asked {} times", asked.load(Ordering::SeqCst))?;
    Ok(())
}
