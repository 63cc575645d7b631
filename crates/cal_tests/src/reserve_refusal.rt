//! The texts by which a state table says why a side did not join.

#[cfg(test)]
mod tests {
    use cal_queue::reserve_refusal::ReserveRefusal;
    use std::test::Fail;

    #[test]
    fn a_state_table_names_its_refusal(rt: HostRuntime) -> Result<(), Fail> {
        let connected = ReserveRefusal::AlreadyConnected { seen: 3 };
        let connected = format!(in rt.alloc(); "{connected}")?;
        assert_eq!(rt; connected.as_str(), "ReserveRefusal::AlreadyConnected");
        let cleaned_up = ReserveRefusal::BeingCleanedUp { seen: 128 };
        let cleaned_up = format!(in rt.alloc(); "{cleaned_up}")?;
        assert_eq!(rt; cleaned_up.as_str(), "ReserveRefusal::BeingCleanedUp");
        Ok(())
    }
}
