//! What the everyday tools say where memory is refused, and the status of failures that no words
//! of theirs lead to.
use everyday_entries::{Failure, Tool, line, status};
use std::alloc::AllocError;
use tools_devices::ToolError;

#[test]
fn what_is_said_of_refused_memory(rt: HostRuntime) -> Result<(), AllocError> {
    let failure = Failure::Stopped(ToolError::Memory);
    let text = line(rt.alloc(), Tool::Infocmp, &failure, "")?;
    assert!(rt; text.as_str() == "ti-infocmp: out of memory\n", "{text}");
    assert_eq!(rt; status(Tool::Infocmp, &failure), 1);
    assert_eq!(rt; status(Tool::Tput, &failure), 255);
    Ok(())
}

// `ti-tput` takes a path for a name, and passes a directory that cannot be searched.
#[test]
fn a_path_of_tput(rt: HostRuntime) -> Result<(), AllocError> {
    let absent = Failure::Absent(String::from_str(rt.alloc(), "./f")?);
    assert_eq!(rt; status(Tool::Tput, &absent), 3);
    let unreadable = Failure::Unreadable(String::from_str(rt.alloc(), "./f")?);
    assert_eq!(rt; status(Tool::Tput, &unreadable), 3);
    Ok(())
}
