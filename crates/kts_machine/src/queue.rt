ghost use Rattle.std.specs.Prelude.{◌≡◌, ◌<◌, [], false, length, drop, replicate, All, IfOk, IfSome, slice_get};
ghost use Rattle.std.specs.List.{range_with_len};
ghost use Rattle.kts_code.specs.Queues.{queued};
ghost use Rattle.kts_machine.specs.TaskQueues.{TaskQueue, IsBelow, AreDistinct, with_task};

use circular_buffer::HeapCircularBuffer;
use kts_base::NoMemory;
use kts_index::Tasks;
use std::alloc::Global;
use std::marker::Model;

/// The tasks that wait, the one that has waited longest first. Only `open` takes memory.
#[derive(Drop)]
pub struct Queue {
    ring: HeapCircularBuffer<usize>,
    /// Whether each task is in the ring.
    marks: Vec<bool>,
}

impl Model for Queue {
    ghost use Rattle.std.specs.Prelude.{length};
    ghost use Rattle.kts_machine.specs.TaskQueues.{TaskQueue, IsMarked};

    ghost Value = { TaskQueue };

    ghost view = { λ q. record { count = length q.marks.items; waiting = q.ring.items } };

    ghost invariant = { λ q. IsMarked q.marks.items q.ring.items q.ring.capacity };
}

impl Queue {
    /// An empty queue of so many tasks.
    pub fn open(alloc: Global, count: usize) -> Result<Queue, NoMemory>
        ensures { IfOk result (λ q. q ≡ record { count = count; waiting = [] }) }
    {
        let ring = match HeapCircularBuffer::with_capacity(alloc, count.max(1)) {
            Ok(ring) => ring,
            Err(_) => return Err(NoMemory),
        };
        let marks = unmarked(alloc, count)?;
        Ok(Queue { ring, marks })
    }

    /// Puts a task at the end, where it doesn't wait already.
    pub fn push(&mut self, task: usize)
        requires { task < self.old.count }
        ensures { self.new ≡ with_task task self.old }
    {
        if self.marks[task] {
            return;
        }
        self.marks[task] = true;
        self.ring.push_back(task);
    }

    /// Takes the task that has waited longest.
    pub fn pop(&mut self) -> Option<usize>
        ensures value { result ≡ slice_get self.old.waiting 0 }
        ensures below { IfSome result (λ task. task < self.old.count) }
        ensures rest { self.new ≡ record self.old { waiting = drop 1 self.old.waiting } }
    {
        match self.ring.pop_front() {
            Some(task) => {
                self.marks[task] = false;
                Some(task)
            }
            None => None,
        }
    }

    /// Takes all tasks. It costs as much as they are.
    pub fn clear(&mut self)
        ensures { self.new ≡ record self.old { waiting = [] } }
    {
        while self.pop().is_some() {}
    }

    /// Puts all tasks into an empty queue, rising.
    pub fn fill(&mut self)
        requires { self.old.waiting ≡ [] }
        ensures { self.new ≡ record self.old { waiting = range_with_len 0 self.old.count } }
    {
        for task in 0..self.marks.len() {
            self.push(task);
        }
    }

    /// The task that has waited longest.
    #[inline(always)]
    pub fn first(&self) -> Option<usize>
        ensures { result ≡ slice_get self.now.waiting 0 }
    {
        match self.ring.front() {
            Some(task) => Some(*task),
            None => None,
        }
    }

    /// Puts these tasks at the end, but for those that wait already.
    #[inline(never)]
    pub fn wake_all(&mut self, tasks: &[u32])
        requires below { All (IsBelow self.old.count) tasks.now }
        requires distinct { AreDistinct tasks.now }
        ensures { self.new ≡ record self.old { waiting = queued tasks.now self.old.waiting } }
    {
        for task in tasks {
            self.push(*task as usize);
        }
    }

    /// Puts tasks at the end, but for those that wait already.
    pub fn wake(&mut self, tasks: Tasks)
        requires below { All (IsBelow self.old.count) tasks }
        requires distinct { AreDistinct tasks }
        ensures { self.new ≡ record self.old { waiting = queued tasks.entry self.old.waiting } }
    {
        for task in tasks {
            self.push(task as usize);
        }
    }
}

fn unmarked(alloc: Global, count: usize) -> Result<Vec<bool>, NoMemory>
    ensures { IfOk result (λ marks. marks.items ≡ replicate count false) }
{
    let mut marks = Vec::new(alloc);
    for _ in 0..count {
        match marks.push(false) {
            Ok(()) => {}
            Err(_) => return Err(NoMemory),
        }
    }
    Ok(marks)
}
