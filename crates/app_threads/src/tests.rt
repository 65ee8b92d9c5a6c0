use super::*;
use app_files::FileSet;
use std::alloc::Global;
use std::test::Fail;

#[test]
fn an_application_and_its_program_cross(rt: HostRuntime) -> Result<(), Fail> {
    let alloc = rt.alloc();
    let app = App::new(alloc, FileSet::new(Vec::new(alloc)))?;
    let program = app.as_program()?;
    assert_eq!(rt; app_for_threads(&app).files().len(), 0);
    assert_eq!(rt; program_for_threads(&program).files().len(), 0);
    assert_eq!(rt; counted_by_two(&rt, &program), (0, 0));
    assert_eq!(rt; *for_threads(&7u32), 7);
    Ok(())
}
