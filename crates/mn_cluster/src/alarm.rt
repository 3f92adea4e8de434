//! What recovery coordinators wait for.
use std::sync::{Condvar, Mutex, Wait};

/// How often clients met trouble, and how many of them are at work.
#[derive(Drop)]
struct News {
    troubles: u64,
    working: usize,
}

/// A bell that clients ring, and recovery coordinators wait for.
#[derive(Drop)]
pub struct Alarm {
    news: Mutex<News>,
    rung: Condvar,
}

/// What a recovery coordinator has heard: how often clients met trouble, and whether none is at
/// work.
#[derive(Clone, Copy)]
pub struct Heard {
    pub troubles: u64,
    pub is_last: bool,
}

impl Alarm {
    /// The alarm of so many clients, which are all at work.
    pub fn new(working: usize) -> Alarm {
        Alarm {
            news: Mutex::new(News {
                troubles: 0,
                working,
            }),
            rung: Condvar::new(),
        }
    }

    /// A client met trouble.
    pub fn ring<T: Wait>(&self, rt: &T) {
        let mut news = self.news.lock(rt);
        news.troubles = news.troubles.saturating_add(1);
        drop(news);
        self.rung.notify_all();
    }

    /// A client is no longer at work.
    pub fn leave<T: Wait>(&self, rt: &T) {
        let mut news = self.news.lock(rt);
        news.working = news.working.saturating_sub(1);
        drop(news);
        self.rung.notify_all();
    }

    /// Waits until there was more trouble than so much, or no client is at work.
    pub fn wait<T: Wait>(&self, rt: &T, known: u64) -> Heard {
        let news = self.rung.wait_while(rt, self.news.lock(rt), |news| {
            news.troubles == known && news.working > 0
        });
        Heard {
            troubles: news.troubles,
            is_last: news.working == 0,
        }
    }
}
