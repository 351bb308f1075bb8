//! Where the threads of a crew are given what to do.

use std::alloc::{AllocError, Global};
use std::sync::atomic::{AtomicU64, Ordering};
use std::sync::{Condvar, Mutex, Wait};
use std::{hint, mem};

// What lies at a thread's post.
#[derive(Drop)]
enum Order<D> {
    Nothing,
    Duty(D),
    GoHome,
}

impl<D: Drop> Order<D> {
    fn is_none(&self) -> bool {
        matches!(self, Order::Nothing)
    }
}

const NO_ORDER: u64 = 0;

const ORDER: u64 = 1;

// Where a thread waits for its next duty.
#[derive(Drop)]
struct Post<D> {
    order: Mutex<Order<D>>,
    given: Condvar,
    // Whether an order lies here, for whoever looks before it sleeps.
    sign: AtomicU64,
}

impl<D: Drop> Post<D> {
    fn new() -> Post<D> {
        Post {
            order: Mutex::new(Order::Nothing),
            given: Condvar::new(),
            sign: AtomicU64::new(NO_ORDER),
        }
    }

    fn give<R: Wait>(&self, rt: &R, order: Order<D>) {
        let mut place = self.order.lock(rt);
        *place = order;
        // (before the lock is let go, or the thread might take the order and put its own sign first)
        self.sign.store(ORDER, Ordering::SeqCst);
        drop(place);
        self.given.notify_one();
    }

    // It looks so many times, and sleeps then.
    fn next<R: Wait>(&self, rt: &R, looks: u64) -> Order<D> {
        look_for(&self.sign, ORDER, looks);
        let mut order = self
            .given
            .wait_while(rt, self.order.lock(rt), |order| order.is_none());
        self.sign.store(NO_ORDER, Ordering::SeqCst);
        mem::replace(&mut *order, Order::Nothing)
    }
}

// Looks for a number, so many times, unless it comes.
fn look_for(place: &AtomicU64, wanted: u64, looks: u64) {
    for _ in 0..looks {
        if place.load(Ordering::SeqCst) == wanted {
            return;
        }
        hint::spin_loop();
    }
}

/// Where the threads of a crew are given their duties, each at a post of its own, and are sent home.
pub struct Yard<D> {
    posts: Vec<Post<D>>,
    // How many duties were given that aren't finished yet.
    under_way: AtomicU64,
    // How many times who waits looks before it sleeps.
    looks: AtomicU64,
}

// Written out: a derived drop is proved once more in each crate that lets a yard go.
impl<D: Drop> Drop for Yard<D> {
    fn drop(self) {
        let Yard {
            posts: _,
            under_way: _,
            looks: _,
        } = self;
    }
}

impl<D: Drop> Yard<D> {
    ghost use Rattle.std.specs.Prelude.{◌≡◌, ◌<◌, ◌≤◌, IfOk};
    ghost use Rattle.crew.specs.Named.{post_count};

    /// Posts for so many threads, none of which is started here.
    pub fn new(alloc: Global, threads: usize) -> Result<Yard<D>, AllocError>
        ensures { IfOk result (λ yard. post_count yard ≡ threads) }
    {
        let mut posts = Vec::with_capacity(alloc, threads)?;
        for _ in 0..threads {
            posts.push_reserved(Post::new());
        }
        Ok(Yard {
            posts,
            under_way: AtomicU64::new(0),
            looks: AtomicU64::new(0),
        })
    }

    /// From now on, who waits looks so many times before it sleeps. It is for threads that have a processor each: at
    /// first there is none of that.
    pub fn look_before_sleep(&self, looks: u64) {
        self.looks.store(looks, Ordering::SeqCst);
    }

    /// Gives a thread something to do. It should have nothing else to do: that would be dropped, and `wait` never end.
    pub fn give<R: Wait>(&self, rt: &R, i: usize, duty: D)
        requires { i < post_count self.now }
    {
        self.under_way.fetch_add(1, Ordering::SeqCst);
        self.posts[i].give(rt, Order::Duty(duty));
    }

    /// What a thread is to do next, for which it waits at its post. `None` sends it home.
    pub fn next<R: Wait>(&self, rt: &R, i: usize) -> Option<D>
        requires { i < post_count self.now }
    {
        let looks = self.looks.load(Ordering::SeqCst);
        match self.posts[i].next(rt, looks) {
            Order::Duty(duty) => Some(duty),
            Order::Nothing | Order::GoHome => None,
        }
    }

    /// A thread has done what it was given, and has let go all that this shared.
    pub fn finish(&self) {
        if self.under_way.fetch_sub(1, Ordering::SeqCst) == 1 {
            self.under_way.wake_one();
        }
    }

    /// Waits until all that was given is finished. One thread at a time may wait.
    pub fn wait<R: Wait>(&self, rt: &R) {
        look_for(&self.under_way, 0, self.looks.load(Ordering::SeqCst));
        for _ in rt.forever() {
            let left = self.under_way.load(Ordering::SeqCst);
            if left == 0 {
                return;
            }
            self.under_way.park(rt, (left % (1 << 32)) as u32);
        }
        unreachable!()
    }

    /// Sends the first so many threads home. One that has something to do should have finished it, as that would be
    /// dropped otherwise.
    pub fn send_home<R: Wait>(&self, rt: &R, threads: usize)
        requires { threads ≤ post_count self.now }
    {
        for post in &self.posts[..threads] {
            post.give(rt, Order::GoHome);
        }
    }
}
