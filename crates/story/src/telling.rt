// How the story tells what it sees.
use frame::{Address, Header, HeaderFault};

fn tell_address(rt: &HostRuntime, who: &str, address: &Address) -> anyhow::Result<()> {
    let kind = if address.is_group() {
        "a group"
    } else {
        "one station"
    };
    println!(rt; "  {who}: {address}, {kind}")?;
    Ok(())
}

pub fn tell_header(rt: &HostRuntime, header: &Header) -> anyhow::Result<()> {
    print!(rt; "  flags:")?;
    let flags = [
        ("to-DS", header.to_ds),
        ("from-DS", header.from_ds),
        ("more-fragments", header.more_fragments),
        ("protected", header.protected),
        ("order", header.order),
    ];
    for (name, _) in flags.iter().filter(|(_, set)| *set) {
        print!(rt; " {name}")?;
    }
    println!(rt; "")?;
    tell_address(rt, "Address 1, the receiver", &header.address1)?;
    tell_address(rt, "Address 2, the transmitter", &header.address2)?;
    tell_address(rt, "Address 3, the destination", &header.address3)?;
    println!(rt;
        "  sequence number {}, fragment {}",
        header.sequence, header.fragment
    )?;
    Ok(())
}

// What the first octets of a frame say.
pub fn tell_read(rt: &HostRuntime, frame: &[u8]) -> anyhow::Result<()> {
    match Header::read(frame) {
        Ok(header) => tell_header(rt, &header),
        Err(HeaderFault::Short) => Ok(println!(rt; "  fewer than 24 octets: no header")?),
        Err(HeaderFault::NotData) => Ok(println!(rt; "  no data frame")?),
    }
}
