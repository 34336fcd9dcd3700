//! Tasks in order, each once.
ghost use Rattle.std.specs.Prelude.{◌≡◌, ◌<◌, [], length, slice_get, Some, OnOk, OnErr};
ghost use Rattle.match_paths.specs.Climbing.{PutsIn};

use crate::task::Task;
use graph_terms::Memory;
use indexmap::IndexSet;
use std::alloc::Global;
use std::marker::Model;

/// Tasks in the order in which they came, each once. Contracts see a list.
#[derive(Drop)]
pub struct TaskList {
    tasks: IndexSet<Task>,
}

impl Model for TaskList {
    ghost use Rattle.std.specs.Prelude.{List};
    ghost use Rattle.match_paths.specs.declared.task.Task.{Task};

    ghost Value = { List Task };

    ghost view = { λ list. list.tasks.keys };
}

impl TaskList {
    /// No tasks.
    pub fn new(alloc: Global) -> TaskList
        ensures { result ≡ [] }
    {
        TaskList {
            tasks: IndexSet::new(alloc),
        }
    }

    /// The number of tasks.
    pub fn len(&self) -> usize
        ensures { result ≡ length self.now }
    {
        self.tasks.len()
    }

    /// The task at the place, if there is one.
    pub fn get(&self, i: usize) -> Option<Task>
        ensures { result ≡ slice_get self.now i }
    {
        self.tasks.get_index(i).copied()
    }

    /// Puts a task last, where it isn't there.
    pub fn put(&mut self, task: Task) -> Result<(), Memory>
        ensures { OnOk result (PutsIn self.old self.new task) }
    {
        self.tasks.insert(task)?;
        Ok(())
    }
}
