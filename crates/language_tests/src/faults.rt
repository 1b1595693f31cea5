//! The texts of faults.

use norm_base::Name;
use speak_setup::SetupFault;
use std::test::Fail;
use thrax_syntax::ReadFault;

#[test]
fn faults_are_shown_by_their_names(rt: HostRuntime) -> Result<(), Fail> {
    let alloc = rt.alloc();
    let at = 1;
    for (fault, wanted) in [
        (ReadFault::BadLexeme { at }, "BadLexeme"),
        (ReadFault::Syntax { statement: 1 }, "Syntax"),
        (ReadFault::BadWeight { at }, "BadWeight"),
        (ReadFault::TooDeep { at }, "TooDeep"),
        (ReadFault::Memory, "Memory"),
    ] {
        assert_eq!(rt; format!(in alloc; "{fault}")?.as_str(), wanted);
    }
    let key = Name::new(alloc, b"tokenizer_rule")?;
    for (fault, wanted) in [
        (SetupFault::BadLine { line: 1 }, "BadLine"),
        (SetupFault::Repeated { line: 1 }, "Repeated"),
        (SetupFault::Missing { key }, "Missing"),
        (SetupFault::Memory, "Memory"),
    ] {
        assert_eq!(rt; format!(in alloc; "{fault}")?.as_str(), wanted);
    }
    Ok(())
}
