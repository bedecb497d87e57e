// The types that threads hand to one another. That they share a hub is `hub_sync` of proofs/Crosses.antt.
use crate::{CoreOffice, Seat};
use sg_device::Disk;

fn is_send<T: Send>() {}

fn hubs_cross_threads<D: Disk + Send>() {
    is_send::<CoreOffice<D>>();
    is_send::<Seat<D>>();
}
