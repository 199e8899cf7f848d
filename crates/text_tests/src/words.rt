use command_words::{Command, WordsFault, read_command};
use std::test::Fail;

#[test]
fn options_in_any_order(rt: HostRuntime) -> Result<(), Fail> {
    let words = [
        "soak",
        "--steps=50",
        "--workers",
        "4",
        "--number=7",
        "--agents",
        "4000",
    ];
    let asked = read_command(rt.alloc(), &words);
    assert_eq!(rt;
        asked,
        Ok(Command::Soak {
            number: 7,
            agents: 4000,
            steps: 50,
            workers: 4
        })
    );
    Ok(())
}

#[test]
fn option_given_twice(rt: HostRuntime) -> Result<(), Fail> {
    let words = ["run", "--workers", "4", "--workers=4"];
    assert_eq!(rt; read_command(rt.alloc(), &words), Err(WordsFault::Usage));
    Ok(())
}
