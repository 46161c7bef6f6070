//! How a job ends that stops before its work is done.
use crate::failure::Failure;
use crate::stopping::{message, status};
use tools_commands::Job;
use tools_devices::{Counted, ToolError};
use tools_disk::ErrorStream;

/// Says on standard error why a job stopped; `name` is that of the terminal, and `found` says that
/// its entry was read. Returns the status of the process, even if standard error takes nothing.
pub fn end_job<R: Eprint>(rt: &R, job: &Job, name: &str, failure: Failure, found: bool) -> u8 {
    match failure {
        Failure::Tool(error) => {
            let mut stream = Counted::new(ErrorStream::new(rt));
            let _ = message(job, name, Some(&error), &mut stream);
            status(job, &error, found)
        }
        Failure::NotText(_) => {
            let tool = job.tool_name();
            let _ = eprintln!(rt; "{tool}: {failure}");
            status(job, &ToolError::Usage, found)
        }
    }
}
