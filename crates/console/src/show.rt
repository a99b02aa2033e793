// What a service man wants to see of a track.
use drive::drive::Drive;
use drive::geometry::{PLACES, Track};

// One place: the ID with its condition, and the condition of the data.
pub fn place<D: Drive>(rt: &HostRuntime, drive: &D, track: Track, place: u8) -> anyhow::Result<()> {
    let field = drive.id(track, place);
    let id = field.id;
    let data = drive.data_condition(track, place);
    print!(rt; "place {place:02}: id {} ", field.condition)?;
    println!(rt;
        "{:02X} {:04X} {:02X} {:02X} data {data}",
        id.flag, id.cylinder, id.head, id.sector
    )?;
    Ok(())
}

// The sixty places of a track, a line each.
pub fn track<D: Drive>(rt: &HostRuntime, drive: &D, track: Track) -> anyhow::Result<()> {
    println!(rt; "cylinder {} head {}", track.cylinder, track.head)?;
    for p in 0..PLACES {
        place(rt, drive, track, p)?;
    }
    Ok(())
}
