use crate::Numbered;

/// What lies in a deque: at first of which run it is, which tells its passes, and then tasks.
#[derive(Drop)]
pub enum Item<N, T> {
    Run(N),
    Task(T),
}

impl<N: Drop, T: Numbered<N>> Item<N, T> {
    ghost use Rattle.std.specs.Prelude.{◌≡◌};
    ghost use Rattle.task_queue.specs.declared.lane.item.Item.TheVariants as item;

    /// The task.
    pub(crate) fn into_task(self) -> T
        requires { (task : T) × (self ≡ item.Task task) }
        ensures { self ≡ item.Task result }
    {
        match self {
            Item::Task(task) => task,
            Item::Run(_) => unreachable!(),
        }
    }
}
