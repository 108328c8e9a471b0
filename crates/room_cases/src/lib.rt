// That there is memory for what a program loads into and dumps with, and how large it is.
#![tactic(auto)]

#[cfg(test)]
mod rooms {
    use composer::Spaces;
    use room::{DumpRoom, LoadRoom};
    use std::test::Fail;

    #[test]
    fn loading(rt: HostRuntime) -> Result<(), Fail> {
        let mut room = LoadRoom::new(rt.alloc())?;
        let tables = room.tables();
        assert_eq!(rt; tables.nodes().len(), 4096);
        assert_eq!(rt; tables.links().len(), 16384);
        assert_eq!(rt; tables.text().len(), 65536);
        let full = Spaces {
            nodes: 4096,
            links: 16384,
            text: 65536,
            anchors: 4096,
            waiting: 16384,
        };
        assert_eq!(rt; tables.spaces(), full);
        assert_eq!(rt; tables.node_count(), 0);
        Ok(())
    }

    #[test]
    fn dumping(rt: HostRuntime) -> Result<(), Fail> {
        let room = DumpRoom::new(rt.alloc())?;
        assert_eq!(rt; room.counting.len(), 4096);
        assert_eq!(rt; room.steps.len(), 20481);
        Ok(())
    }
}
